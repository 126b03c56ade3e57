#![tactic(auto)]
// The scanner: what stands at each place of a line. Ports lex.rs `Scanner`: which lexeme starts with a character, and the
// step from one to the next; the definitions are `Lexemes` of the crate `language`.
ghost use Rattle.std.specs.Prelude.{◌≡◌, true, [], ◌+◌, ◌-◌, ◌≤◌, ◌<◌, length, drop, get_or};
ghost use Rattle.std.specs.Iterator.{at_most};
ghost use Rattle.language.specs.Tokens.{most_bytes};
ghost use Rattle.language.specs.Lexemes.{is_digit, number, comment, string, punctuation, ascii, lexeme, scan};
ghost use Rattle.language.specs.Tables.{lexeme_row, lexeme_width};
ghost use Rattle.table.specs.Table.{pad_to, tabled};
ghost use Rattle.lexemes.specs.Kinds.{lexeme_as};
ghost use Rattle.rows.specs.Rows.{verdict_as};
ghost use Rattle.scan.specs.Entry.{ScanLine, Scans};
ghost use Rattle.scan.specs.Scanning.{word_at, mark_as, sign_of, GivesLexeme, body_of, refusal_of};

use lexemes::{LexErrorKind, Lexeme, LexemeKind};
use rows::{LexemeRow, Source, Tok, Verdict};

// ---- words

// Which token the word from `at` up to `end` is: a reserved one, or a name.
fn word(line: &[u8], at: usize, end: usize) -> Tok
    requires { (at ≤ end) × (end ≤ length line.now) }
    ensures { result ≡ word_at line.now at end }
{
    if runs::is_key(line, at, end, b"import") {
        return Tok::ImportKeyword;
    }
    if runs::is_key(line, at, end, b"let") {
        return Tok::LetKeyword;
    }
    if runs::is_key(line, at, end, b"true") {
        return Tok::BooleanLiteral(true);
    }
    if runs::is_key(line, at, end, b"false") {
        return Tok::BooleanLiteral(false);
    }
    Tok::Identifier
}

// ---- strings, comments and punctuation

// A string literal whose opening quote is at `at`.
fn string(line: &[u8], at: usize) -> Lexeme
    requires { at < length line.now }
    ensures { result ≡ lexeme_as at (string (drop (at + 1) line.now)) }
{
    let end = runs::eat_body(line, at + 1);
    if runs::peek(line, end) == b'"' {
        return Lexeme {
            start: at,
            end: end + 1,
            kind: LexemeKind::Str,
        };
    }
    Lexeme {
        start: at,
        end: end,
        kind: LexemeKind::Error(LexErrorKind::UnterminatedString),
    }
}

// The punctuation that is one byte long wherever it stands.
fn punctuation(b: u8) -> Option<Tok>
    ensures { result ≡ mark_as (punctuation b) }
{
    match b {
        b'(' => Some(Tok::LParen),
        b')' => Some(Tok::RParen),
        b'.' => Some(Tok::Dot),
        b';' => Some(Tok::SemiColon),
        b'=' => Some(Tok::Equals),
        b',' => Some(Tok::Comma),
        _ => None,
    }
}

fn token(at: usize, end: usize, tok: Tok) -> Lexeme
    ensures { result ≡ record { start = at; end = end; kind = LexemeKind.Tok tok } }
{
    Lexeme {
        start: at,
        end: end,
        kind: LexemeKind::Tok(tok),
    }
}

fn comment(line: &[u8], at: usize) -> Lexeme
    requires { at < length line.now }
    ensures { result ≡ lexeme_as at (comment 1 (drop (at + 1) line.now)) }
{
    Lexeme {
        start: at,
        end: runs::eat_comment(line, at + 1),
        kind: LexemeKind::Trivia,
    }
}

fn unexpected(at: usize, end: usize, c: u32) -> Lexeme
    ensures { result ≡ record { start = at; end = end; kind = LexemeKind.Error (LexErrorKind.UnexpectedChar c) } }
{
    Lexeme {
        start: at,
        end: end,
        kind: LexemeKind::Error(LexErrorKind::UnexpectedChar(c as u64)),
    }
}

// ---- the scanner

// What is left to scan of a line: the lexemes from `pos` on. Past its end there are none.
#[derive(Clone, Copy)]
pub struct Scanner<'a> {
    pub line: &'a [u8],
    pub pos: usize,
}

impl<'a> Scanner<'a> {
    pub fn new(line: &'a [u8]) -> Scanner<'a>
        ensures { (result.line.now ≡ line.now) × (result.pos ≡ 0) }
    {
        Scanner::at(line, 0)
    }

    // The lexemes of the line from a place on, where a lexeme starts.
    pub fn at(line: &'a [u8], pos: usize) -> Scanner<'a>
        ensures { (result.line.now ≡ line.now) × (result.pos ≡ pos) }
    {
        Scanner { line, pos }
    }

    // Whatever starts at `at`.
    fn lexeme(line: &[u8], at: usize) -> Lexeme
        requires { at < length line.now }
        ensures { result ≡ lexeme_as at (lexeme (drop at line.now)) }
    {
        let Some(here) = utf8::decode(line, at) else {
            return unexpected(at, at + 1, u32::from(line[at]));
        };
        if runs::is_space(here.number) {
            return Lexeme {
                start: at,
                end: runs::eat_spaces(line, at),
                kind: LexemeKind::Trivia,
            };
        }
        if here.number < 128 {
            return Scanner::ascii(line, at);
        }
        unexpected(at, here.next, here.number)
    }

    // What starts with an ASCII character that is not blank.
    fn ascii(line: &[u8], at: usize) -> Lexeme
        requires { at < length line.now }
        ensures { result ≡ lexeme_as at (ascii (get_or line.now at 0) (drop (at + 1) line.now)) }
    {
        let b = line[at];
        if runs::is_word_start(b) {
            let end = runs::eat_word(line, at);
            return token(at, end, word(line, at, end));
        }
        if runs::is_digit(b) {
            return Scanner::number(line, at);
        }
        if let Some(t) = punctuation(b) {
            return token(at, at + 1, t);
        }
        Scanner::sign(line, at)
    }

    // A comment, `/`, `:`, `::`, a string literal, or what no token starts with.
    fn sign(line: &[u8], at: usize) -> Lexeme
        requires { at < length line.now }
        ensures { result ≡ lexeme_as at (sign_of line.now at) }
    {
        let b = line[at];
        let next = runs::peek(line, at + 1);
        if b == b'#' {
            return comment(line, at);
        }
        if b == b'/' {
            if next == b'/' {
                return comment(line, at);
            }
            return token(at, at + 1, Tok::Slash);
        }
        if b == b':' {
            if next == b':' {
                return token(at, at + 2, Tok::DoubleColon);
            }
            return token(at, at + 1, Tok::Colon);
        }
        if b == b'"' {
            return string(line, at);
        }
        unexpected(at, at + 1, b as u32)
    }

    // The lexeme at a digit: an address if digits stand four times there with a dot between, else an integer. It takes in all
    // letters, digits and `_` up to the next other byte, so a name never begins right after a digit.
    fn number(line: &[u8], at: usize) -> Lexeme
        requires { (at < length line.now) × (is_digit (get_or line.now at 0) ≡ true) }
        ensures { result ≡ lexeme_as at (number (drop at line.now)) }
    {
        let Some(quad) = numerals::dotted_quad(line, at) else {
            let end = runs::eat_word(line, at);
            return Lexeme {
                start: at,
                end,
                kind: numerals::integer(line, at, end),
            };
        };
        let end = runs::eat_word(line, quad.end);
        if let Some(a) = quad.address {
            if end == quad.end {
                return Lexeme {
                    start: at,
                    end,
                    kind: LexemeKind::Tok(Tok::IPv4Literal(a)),
                };
            }
        }
        Lexeme {
            start: at,
            end,
            kind: LexemeKind::Error(LexErrorKind::IPv4Literal),
        }
    }
}

impl<'a> Iterator for Scanner<'a> {
    type Item = Lexeme;

    ghost next_gives = { GivesLexeme };

    ghost remaining = { λ s. at_most (length s.line.now - s.pos) };

    // Without this a `next` that is called has the line and the place in memory, which costs two instructions a lexeme.
    #[inline(always)]
    fn next(&mut self) -> Option<Lexeme> {
        if self.pos < self.line.len() {
            let found = Scanner::lexeme(self.line, self.pos);
            self.pos = found.end;
            return Some(found);
        }
        None
    }
}

// What stands between the quotes of the literal from `start` up to `end`, as a part of the line.
pub fn body(line: &[u8], start: usize, end: usize) -> &[u8]
    ensures { result.now ≡ body_of line.now start end }
{
    if end <= line.len() {
        if start < end {
            if start + 1 < end {
                return &line[start + 1..end - 1];
            }
        }
    }
    &line[..0]
}

// ---- the entry

#[repr(C)]
#[derive(Clone, Copy)]
pub struct Scanned {
    pub verdict: Verdict,
    pub lexemes: u64,
}

// Writes a row for each lexeme of a line into a table of zeros, and answers how many there are. A row that the table has
// no room for is counted, and not kept.
fn fill(line: &[u8], table: &mut [u64]) -> u64
    requires line_len_bound { length line.now ≤ most_bytes }
    requires table_value { table.old ≡ pad_to (length table.old) [] }
    ensures value { result ≡ length (scan line.now) }
    ensures table_after { table.new ≡ tabled lexeme_row lexeme_width (length table.old) (scan line.now) }
{
    let mut count: usize = 0;
    for found in Scanner::new(line) {
        table::put_row(table, count, &lexemes::row_of(found));
        count += 1;
    }
    count as u64
}

// Why a line is refused: it is too long, its text is no UTF-8 at a column, from 1, or the table has no room for its lexemes.
#[derive(Clone, Copy)]
pub enum ScanError {
    TooLong,
    NotUtf8(u64),
    TableRoom,
}

// The numbers, which C reads.
impl From<ScanError> for Verdict {
    ghost from_gives = { λ e v. v ≡ verdict_as (refusal_of e) };

    fn from(error: ScanError) -> Verdict {
        match error {
            ScanError::TooLong => Verdict::new(Verdict::TOO_LONG, 0, 0),
            ScanError::NotUtf8(column) => Verdict::new(Verdict::NOT_UTF8, 1, column),
            ScanError::TableRoom => Verdict::new(Verdict::TOKEN_ROOM, 0, 0),
        }
    }
}

// Scans a line into a lent table, and answers how many lexemes it has. Only a line that is not refused clears the table first.
fn scan_into(line: &[u8], table: &mut [u64]) -> Result<u64, ScanError>
    ensures { Scans line.now (length table.old) result table.new }
{
    let room = (table.len() / LexemeRow::WORDS) as u64;
    if Source::MOST_BYTES < line.len() {
        return Err(ScanError::TooLong);
    }
    if let Some(at) = utf8::first_bad(line) {
        return Err(ScanError::NotUtf8(at as u64 + 1));
    }
    table::clear(table);
    let count = fill(line, table);
    if room < count {
        return Err(ScanError::TableRoom);
    }
    Ok(count)
}

// Scans a line, which may hold byte 10, into a lent table of lexemes. `Scanned` is what C reads.
pub fn scan_line(line: &[u8], table: &mut [u64]) -> Scanned
    ensures { ScanLine line.now (length table.old) result table.new }
{
    match scan_into(line, table) {
        Ok(count) => Scanned {
            verdict: Verdict::new(Verdict::DONE, 0, 0),
            lexemes: count,
        },
        Err(error) => {
            table::clear(table);
            Scanned {
                verdict: Verdict::from(error),
                lexemes: 0,
            }
        }
    }
}
