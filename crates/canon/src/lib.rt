#![tactic(auto)]
// Canonical text: the tokens of a source, spelt in one way. The definition is `Canonical` of the crate `language`. The crate
// `writer` counts bytes past the end of the lent text and does not keep them, and the count is judged at the end.
ghost use Rattle.std.specs.Prelude.{◌≡◌, [], ◌∷◌, ◌+◌, ◌≤◌, length};
ghost use Rattle.table.specs.Table.{pad_to};
ghost use Rattle.language.specs.Integers.{hexadecimal};
ghost use Rattle.language.specs.Tokens.{bodies_in, most_bytes};
ghost use Rattle.language.specs.Canonical.{spell_digits, spell_quad, quoted};
ghost use Rattle.wide.specs.Wide.{value_of};
ghost use Rattle.writer.specs.Writing.{Writes};
ghost use Rattle.canon.specs.Spelling.{literals_text, literal_text, mark_of, bool_text, fixed_text, row_text, gap_text, RowFits, WritesText};
ghost use Rattle.lex.specs.Entry.{Lexes};
ghost use Rattle.canon.specs.Entry.{CanonSource, CanonsInto, verdict_of};
ghost use Rattle.canon.specs.declared.CanonError.TheVariants.{Lex};

use lex::LexError;
use lexemes::LexemeKind;
use rows::{Source, TokKind, TokenRow, Verdict};
use scan::Scanner;
use wide::Wide;

// What C reads.
#[repr(C)]
#[derive(Clone, Copy)]
pub struct Canonised {
    pub verdict: Verdict,
    pub tokens: u64,
    pub bytes: u64,
}

// ---- numbers

// `0x` with lower case and no leading zeros.
fn hex_text(v: Wide, text: &mut [u8], at: usize) -> usize
    requires { at ≤ most_bytes }
    ensures writes { Writes text.old at (48 ∷ 120 ∷ spell_digits (hexadecimal (value_of v))) result text.new }
    ensures upper_bound { result ≤ at + 34 }
{
    let a = writer::copy(b"0x", text, at);
    writer::hexadecimal(v, text, a)
}

// Four numbers with dots between.
fn quad_text(address: u64, text: &mut [u8], at: usize) -> usize
    requires { at ≤ most_bytes }
    ensures writes { Writes text.old at (spell_quad address) result text.new }
    ensures upper_bound { result ≤ at + 159 }
{
    let a = writer::decimal_word(address / 16777216 % 256, text, at);
    let b = writer::put(b'.', text, a);
    let c = writer::decimal_word(address / 65536 % 256, text, b);
    let d = writer::put(b'.', text, c);
    let e = writer::decimal_word(address / 256 % 256, text, d);
    let f = writer::put(b'.', text, e);
    writer::decimal_word(address % 256, text, f)
}

// ---- strings

// A body in its quotes.
fn quoted_text(body: &[u8], text: &mut [u8], at: usize) -> usize
    requires { (length body.now ≤ most_bytes) × (at ≤ 524288) }
    ensures writes { Writes text.old at (quoted body.now) result text.new }
    ensures upper_bound { result ≤ at + length body.now + 2 }
{
    let a = writer::put(b'"', text, at);
    let b = writer::copy(body, text, a);
    writer::put(b'"', text, b)
}

// A literal of a string whose text starts at `from`: with a space before it, unless it is the first.
fn literal_text(body: &[u8], from: usize, text: &mut [u8], at: usize) -> usize
    requires { (length body.now ≤ most_bytes) × (at ≤ 524287) }
    ensures writes { Writes text.old at (literal_text from at body.now) result text.new }
    ensures upper_bound { result ≤ at + length body.now + 3 }
{
    if at == from {
        return quoted_text(body, text, at);
    }
    let a = writer::put(b' ', text, at);
    quoted_text(body, text, a)
}

// The literals among the lexemes of a part of the source, with one space between.
fn literals(part: &[u8], text: &mut [u8], at: usize) -> usize
    requires { (length part.now ≤ most_bytes) × (at ≤ most_bytes) }
    ensures writes { Writes text.old at (literals_text (bodies_in part.now)) result text.new }
    ensures upper_bound { result ≤ at + 262144 }
{
    let mut end = at;
    for found in Scanner::new(part) {
        if let LexemeKind::Str = found.kind {
            let body = scan::body(part, found.start, found.end);
            end = literal_text(body, at, text, end);
        }
    }
    end
}

// ---- tokens

// Punctuation of one byte.
fn mark(kind: u64) -> u8
    ensures { result ≡ mark_of kind }
{
    match kind {
        TokKind::LPAREN => b'(',
        TokKind::RPAREN => b')',
        TokKind::DOT => b'.',
        TokKind::COLON => b':',
        TokKind::SEMI_COLON => b';',
        TokKind::EQUALS => b'=',
        TokKind::COMMA => b',',
        _ => b'/',
    }
}

fn bool_text(low: u64, text: &mut [u8], at: usize) -> usize
    requires { at ≤ most_bytes }
    ensures writes { Writes text.old at (bool_text low) result text.new }
    ensures upper_bound { result ≤ at + 6 }
{
    if low == 0 {
        return writer::copy(b"false", text, at);
    }
    writer::copy(b"true", text, at)
}

// Punctuation, keywords and booleans.
fn fixed_text(kind: u64, low: u64, text: &mut [u8], at: usize) -> usize
    requires { at ≤ most_bytes }
    ensures writes { Writes text.old at (fixed_text kind low) result text.new }
    ensures upper_bound { result ≤ at + 6 }
{
    match kind {
        TokKind::DOUBLE_COLON => writer::copy(b"::", text, at),
        TokKind::IMPORT_KEYWORD => writer::copy(b"import", text, at),
        TokKind::LET_KEYWORD => writer::copy(b"let", text, at),
        TokKind::BOOLEAN_LITERAL => bool_text(low, text, at),
        _ => writer::put(mark(kind), text, at),
    }
}

// The token whose row starts at the word `row` of the table.
fn token_text(source: &[u8], toks: &[u64], row: usize, text: &mut [u8], at: usize) -> usize
    requires { RowFits source.now toks.now row × (at ≤ most_bytes) }
    ensures writes { Writes text.old at (row_text source.now toks.now row) result text.new }
    ensures upper_bound { result ≤ at + 262144 }
{
    let kind = toks[row];
    let start = toks[row + TokenRow::START] as usize;
    let end = toks[row + TokenRow::END] as usize;
    let low = toks[row + TokenRow::LOW];
    let high = toks[row + TokenRow::HIGH];
    match kind {
        TokKind::IDENTIFIER => writer::copy(&source[start..end], text, at),
        TokKind::IPV4_LITERAL => quad_text(low, text, at),
        TokKind::STRING_LITERAL => literals(&source[start..end], text, at),
        TokKind::HEX_LITERAL => hex_text(Wide { hi: high, lo: low }, text, at),
        TokKind::DEC_LITERAL => writer::decimal(Wide { hi: high, lo: low }, text, at),
        _ => fixed_text(kind, low, text, at),
    }
}

// What stands between two tokens.
fn separator(kind: u64, next: u64, text: &mut [u8], at: usize) -> usize
    requires { at ≤ 1048576 }
    ensures writes { Writes text.old at (gap_text kind next) result text.new }
    ensures upper_bound { result ≤ at + 1 }
{
    if kind == TokKind::SEMI_COLON {
        return writer::put(b'\n', text, at);
    }
    // nothing before `Eof`
    if next == TokKind::EOF {
        return at;
    }
    writer::put(b' ', text, at)
}

// The text of `count` tokens, of which the last is `Eof`. It stops early where the text is too long already.
fn all_text(source: &[u8], toks: &[u64], count: usize, text: &mut [u8]) -> usize
    requires { Lexes source.now toks.now count }
    ensures { WritesText source.now text.old result text.new }
{
    let mut at = 0;
    for i in 1..count {
        if Source::MOST_BYTES < at {
            return at;
        }
        let next = i * TokenRow::WORDS;
        let row = next - TokenRow::WORDS;
        let end = token_text(source, toks, row, text, at);
        at = separator(toks[row], toks[next], text, end);
    }
    at
}

// ---- the entry

// Why there is no canonical text.
#[derive(Clone, Copy)]
pub enum CanonError {
    Lex(LexError),
    TextRoom,
}

impl From<LexError> for CanonError {
    ghost from_gives = { λ e r. r ≡ Lex e };

    fn from(error: LexError) -> CanonError {
        CanonError::Lex(error)
    }
}

// The numbers, which C reads.
impl From<CanonError> for Verdict {
    ghost from_gives = { λ e v. v ≡ verdict_of e };

    fn from(error: CanonError) -> Verdict {
        match error {
            CanonError::Lex(e) => Verdict::from(e),
            CanonError::TextRoom => Verdict::new(Verdict::TEXT_ROOM, 0, 0),
        }
    }
}

// Lexes a source into a lent table of tokens, and writes its canonical text to a lent text. A refusal may leave anything in both.
fn text_into(source: &[u8], toks: &mut [u64], text: &mut [u8]) -> Result<Canonised, CanonError>
    ensures { CanonsInto source.now (length toks.old) (length text.old) result toks.new text.new }
{
    let room = text.len();
    let count = lex::tokens_into(source, toks)?;
    table::clear_bytes(text);
    let size = all_text(source, toks, count, text);
    if room < size {
        return Err(CanonError::TextRoom);
    }
    if Source::MOST_BYTES < size {
        return Err(CanonError::TextRoom);
    }
    Ok(Canonised {
        verdict: Verdict::new(Verdict::DONE, 0, 0),
        tokens: count as u64,
        bytes: size as u64,
    })
}

// A refusal leaves nothing in the table and in the text.
fn refused(error: CanonError, toks: &mut [u64], text: &mut [u8]) -> Canonised
    ensures answer { result ≡ record { verdict = verdict_of error; tokens = 0; bytes = 0 } }
    ensures no_token { toks.new ≡ pad_to (length toks.old) [] }
    ensures no_byte { text.new ≡ pad_to (length text.old) [] }
{
    let verdict = Verdict::from(error);
    table::clear(toks);
    table::clear_bytes(text);
    Canonised {
        verdict,
        tokens: 0,
        bytes: 0,
    }
}

// Lexes a source into a lent table of tokens, and writes its canonical text to a lent text.
pub fn canonicalise(source: &[u8], toks: &mut [u64], text: &mut [u8]) -> Canonised
    ensures { CanonSource source.now (length toks.old) (length text.old) result toks.new text.new }
{
    match text_into(source, toks, text) {
        Ok(done) => done,
        Err(error) => refused(error, toks, text),
    }
}
