#![tactic(auto)]
// The lexer: from raw source to tokens. Ports lex.rs `Lexer`, `Token` and `PendingStr`; the definitions are `Tokens` of
// the crate `language`.
ghost use Rattle.std.specs.Prelude.{◌≡◌, [], ◌+◌, ◌≤◌, length, None};
ghost use Rattle.table.specs.Table.{pad_to};
ghost use Rattle.language.specs.Tokens.{place_of, bodies_in, most_bytes};
ghost use Rattle.lex.specs.Entry.{LexSource, LexesInto, StringBody};
ghost use Rattle.lex.specs.Lexing.{waiting, Strings, Flushes, Tokens, Few, line_items, Feeds, Finishes, line_end, FeedsAll, loc_as, verdict_of, nth};

use lexemes::{LexErrorKind, LexemeKind};
use rows::{Source, Tok, TokKind, TokenRow, Verdict};
use scan::Scanner;

// A string token that is not written yet, because the next literal may belong to it: the place of its first literal, its span
// so far, and how many literals came after the first.
#[derive(Clone, Copy)]
pub struct PendingStr {
    pub line: u64,
    pub column: u64,
    pub start: u64,
    pub end: u64,
    pub others: u64,
}

// What is known between two lines. The tokens themselves are in the lent table.
#[derive(Clone, Copy)]
pub struct Lexer {
    // The number of the last line, 0 before the first.
    pub lno: u64,
    // How many tokens there are so far. One that the table has no room for is counted, and not kept.
    pub count: usize,
    // The literals at the end of what was read, which another line may go on.
    pub pending: Option<PendingStr>,
}

// A line and a column, both from 1.
#[derive(Clone, Copy)]
pub struct Loc {
    pub line: u64,
    pub column: u64,
}

// What C reads.
#[repr(C)]
#[derive(Clone, Copy)]
pub struct Lexed {
    pub verdict: Verdict,
    pub tokens: u64,
}

// Why a source is refused.
#[derive(Clone, Copy)]
pub enum LexError {
    TooLong,
    // Where the text is no UTF-8.
    NotUtf8(Loc),
    // The first lexeme that is none, and where it starts.
    Lexical(LexErrorKind, Loc),
    TokenRoom,
}

// The numbers, which C reads.
impl From<LexError> for Verdict {
    ghost from_gives = { λ e v. v ≡ verdict_of e };

    fn from(error: LexError) -> Verdict {
        match error {
            LexError::TooLong => Verdict::new(Verdict::TOO_LONG, 0, 0),
            LexError::NotUtf8(at) => Verdict::new(Verdict::NOT_UTF8, at.line, at.column),
            LexError::Lexical(e, at) => Verdict {
                number: Verdict::LEXICAL,
                kind: e.kind(),
                line: at.line,
                column: at.column,
                character: e.character(),
            },
            LexError::TokenRoom => Verdict::new(Verdict::TOKEN_ROOM, 0, 0),
        }
    }
}

impl Lexer {
    pub fn new() -> Self
        ensures { (result.lno ≡ 0) × (result.count ≡ 0) × (result.pending ≡ None) }
    {
        Self {
            lno: 0,
            count: 0,
            pending: None,
        }
    }

    // A literal from `from` up to `to` of the line that starts at `start`: it is joined with those that wait.
    fn string(self, start: usize, from: usize, to: usize) -> Lexer
        requires { (start + to ≤ most_bytes) × (from ≤ to) × (waiting self.pending ≤ most_bytes) }
        ensures { Strings self start from to result }
    {
        let end = (start + to) as u64;
        match self.pending {
            None => Lexer {
                pending: Some(PendingStr {
                    line: self.lno,
                    column: from as u64 + 1,
                    start: (start + from) as u64,
                    end,
                    others: 0,
                }),
                ..self
            },
            Some(p) => Lexer {
                pending: Some(PendingStr {
                    end,
                    others: p.others + 1,
                    ..p
                }),
                ..self
            },
        }
    }

    // The literals that wait become a token.
    fn flush(self, table: &mut [u64]) -> Lexer
        requires { self.count + waiting self.pending ≤ most_bytes }
        ensures { Flushes self table.old result table.new }
    {
        let Some(p) = self.pending else {
            return self;
        };
        let row = [
            TokKind::STRING_LITERAL,
            p.line,
            p.column,
            p.start,
            p.end,
            p.others + 1,
            0,
        ];
        table::put_row(table, self.count, &row);
        Lexer {
            count: self.count + 1,
            pending: None,
            ..self
        }
    }

    // A token from `from` up to `to` of the line that starts at `start`.
    fn token(self, start: usize, from: usize, to: usize, tok: Tok, table: &mut [u64]) -> Lexer
        requires { (start + to ≤ most_bytes) × (from ≤ to) × (self.count + waiting self.pending ≤ most_bytes) }
        ensures { Tokens self table.old start from to tok result table.new }
    {
        let lexer = self.flush(table);
        let value = tok.value();
        let row = [
            tok.kind(),
            lexer.lno,
            from as u64 + 1,
            (start + from) as u64,
            (start + to) as u64,
            value.lo,
            value.hi,
        ];
        table::put_row(table, lexer.count, &row);
        Lexer {
            count: lexer.count + 1,
            pending: None,
            ..lexer
        }
    }

    // Lexes the line numbered `lno`, which starts at `start` of the source, lexeme by lexeme.
    fn lexemes(self, line: &[u8], start: usize, table: &mut [u64]) -> Result<Lexer, LexError>
        requires { (self.count + waiting self.pending ≤ start) × (start + length line.now ≤ most_bytes) }
        ensures { Feeds self table.old result table.new self.lno (start + length line.now) (line_items self.lno start line.now) }
    {
        let mut lexer = self;
        for found in Scanner::new(line) {
            match found.kind {
                LexemeKind::Trivia => {}
                LexemeKind::Str => {
                    lexer = lexer.string(start, found.start, found.end);
                }
                LexemeKind::Tok(t) => {
                    lexer = lexer.token(start, found.start, found.end, t, table);
                }
                LexemeKind::Error(e) => {
                    let line = lexer.lno;
                    let column = found.start as u64 + 1;
                    return Err(LexError::Lexical(e, Loc { line, column }));
                }
            }
        }
        Ok(lexer)
    }

    // Lexes one line, lent without its byte 10, of which the first byte stands at `start` of the source. The source is not asked for,
    // so the line may stand anywhere.
    pub fn line(self, line: &[u8], start: usize, table: &mut [u64]) -> Result<Lexer, LexError>
        requires { Few self start × (start + length line.now ≤ most_bytes) }
        ensures { Feeds self table.old result table.new (self.lno + 1) (start + length line.now) (line_items (self.lno + 1) start line.now) }
    {
        let lexer = Lexer {
            lno: self.lno + 1,
            ..self
        };
        lexer.lexemes(line, start, table)
    }

    // After the last line of a source of `size` bytes: the string that waits is written, and then `Eof`.
    pub fn finish(self, size: usize, table: &mut [u64]) -> Lexer
        requires { Few self size }
        ensures { Finishes self table.old size result table.new }
    {
        let lexer = self.flush(table);
        let row = [
            TokKind::EOF,
            lexer.lno + 1,
            1,
            size as u64,
            size as u64,
            0,
            0,
        ];
        table::put_row(table, lexer.count, &row);
        Lexer {
            count: lexer.count + 1,
            pending: None,
            ..lexer
        }
    }
}

// Where the line ends that starts at `at`: before byte 10 or at the end of the source, and so where a comment would end.
fn line_end(source: &[u8], at: usize) -> usize
    requires { at ≤ length source.now }
    ensures value { result ≡ line_end source.now at }
    ensures lower_bound { (at ≤ result) × (result ≤ length source.now) }
{
    runs::eat_comment(source, at)
}

// The line and the column of a byte.
fn loc_of(source: &[u8], at: usize) -> Loc
    requires { (at ≤ length source.now) × (length source.now ≤ most_bytes) }
    ensures { result ≡ loc_as (place_of source.now at) }
{
    let mut line: u64 = 1;
    let mut column: u64 = 1;
    for b in &source[..at] {
        if *b == b'\n' {
            line += 1;
            column = 1;
        } else {
            column += 1;
        }
    }
    Loc { line, column }
}

// Feeds a source to a new lexer, line by line. The loop goes by position, since spans are counted from where a line starts.
fn feed_lines(source: &[u8], table: &mut [u64]) -> Result<Lexer, LexError>
    requires { length source.now ≤ most_bytes }
    ensures { FeedsAll table.old result table.new source.now }
{
    let mut lexer = Lexer::new();
    let mut at = 0;
    while at < source.len() {
        let end = line_end(source, at);
        lexer = lexer.line(&source[at..end], at, table)?;
        at = end + 1;
    }
    Ok(lexer)
}

// Lexes a source into a lent table, and answers how many tokens it has. A refusal may leave anything in the table: who calls
// this for C clears it then.
pub fn tokens_into(source: &[u8], table: &mut [u64]) -> Result<usize, LexError>
    ensures { LexesInto source.now (length table.old) result table.new }
{
    let room = table.len() / TokenRow::WORDS;
    if Source::MOST_BYTES < source.len() {
        return Err(LexError::TooLong);
    }
    if let Some(at) = utf8::first_bad(source) {
        return Err(LexError::NotUtf8(loc_of(source, at)));
    }
    table::clear(table);
    let lexer = feed_lines(source, table)?;
    let done = lexer.finish(source.len(), table);
    if room < done.count {
        return Err(LexError::TokenRoom);
    }
    Ok(done.count)
}

// A refusal leaves nothing in the table.
fn refused(error: LexError, table: &mut [u64]) -> Lexed
    ensures answer { result ≡ record { verdict = verdict_of error; tokens = 0 } }
    ensures nothing_left { table.new ≡ pad_to (length table.old) [] }
{
    let verdict = Verdict::from(error);
    table::clear(table);
    Lexed { verdict, tokens: 0 }
}

// Lexes a source into a lent table of tokens.
pub fn lex_source(source: &[u8], table: &mut [u64]) -> Lexed
    ensures { LexSource source.now (length table.old) result table.new }
{
    match tokens_into(source, table) {
        Ok(count) => Lexed {
            verdict: Verdict::new(Verdict::DONE, 0, 0),
            tokens: count as u64,
        },
        Err(error) => refused(error, table),
    }
}

// The body numbered `i`, from 0, of a string token that spans the source from `start` up to `end`: the part of the
// source between its quotes. Nothing where there is none.
pub fn string_body(source: &[u8], start: usize, end: usize, i: u64) -> &[u8]
    ensures { StringBody source.now start end i result.now }
{
    if end <= source.len() {
        if start <= end {
            return nth_body(&source[start..end], i);
        }
    }
    &source[..0]
}

// The body of the literal numbered `i` of a text.
fn nth_body(text: &[u8], i: u64) -> &[u8]
    ensures { result.now ≡ nth i (bodies_in text.now) }
{
    let mut left = i;
    for found in Scanner::new(text) {
        if let LexemeKind::Str = found.kind {
            if left == 0 {
                return scan::body(text, found.start, found.end);
            }
            left -= 1;
        }
    }
    &text[..0]
}
