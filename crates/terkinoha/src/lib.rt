#![tactic(auto)]
// The C face: what include/terkinoha.h declares and explains. Each entry hands on what the proved one below it answers, and
// promises the same equations. Tables are lent as words; the header turns rows into words. Nothing here keeps anything between
// calls. The words of each answer, in the order that C gets them in, are `Words` of specs/.
ghost use Rattle.std.specs.Prelude.{◌≡◌, length};
ghost use Rattle.scan.specs.Entry.{ScanLine};
ghost use Rattle.lex.specs.Entry.{LexSource};
ghost use Rattle.parse.specs.Entry.{ParseSource};
ghost use Rattle.canon.specs.Entry.{CanonSource};
ghost use Rattle.checker.specs.Entry.{CheckSource};
ghost use Rattle.terkinoha.specs.Bodies.{FirstOf, NextBody, BodyAt};
ghost use Rattle.terkinoha.specs.Version.{version};

use canon::Canonised;
use checker::CheckAnswer;
use lex::Lexed;
use lexemes::{Lexeme, LexemeKind};
use parse::ParseAnswer;
use scan::{Scanned, Scanner};

// The version of the header that this code goes with.
#[unsafe(no_mangle)]
pub extern "C" fn terkinoha_version() -> u64
    ensures { result ≡ version }
{
    2
}

// Scans a line, which may hold byte 10, into a lent table of lexemes.
#[unsafe(no_mangle)]
pub extern "C" fn terkinoha_scan_words(line: &[u8], lexemes: &mut [u64]) -> Scanned
    ensures { ScanLine line.now (length lexemes.old) result lexemes.new }
{
    scan::scan_line(line, lexemes)
}

// Lexes a source into a lent table of tokens.
#[unsafe(no_mangle)]
pub extern "C" fn terkinoha_lex_words(source: &[u8], tokens: &mut [u64]) -> Lexed
    ensures { LexSource source.now (length tokens.old) result tokens.new }
{
    lex::lex_source(source, tokens)
}

// Parses a source into a lent table of tokens and a lent table of nodes.
#[unsafe(no_mangle)]
pub extern "C" fn terkinoha_parse_words(
    source: &[u8],
    tokens: &mut [u64],
    nodes: &mut [u64],
) -> ParseAnswer
    ensures { ParseSource source.now (length tokens.old) (length nodes.old) result tokens.new nodes.new }
{
    parse::parse_source(source, tokens, nodes)
}

// Lexes a source into a lent table of tokens, and writes its canonical text to a lent text.
#[unsafe(no_mangle)]
pub extern "C" fn terkinoha_canonicalise_words(
    source: &[u8],
    tokens: &mut [u64],
    text: &mut [u8],
) -> Canonised
    ensures { CanonSource source.now (length tokens.old) (length text.old) result tokens.new text.new }
{
    canon::canonicalise(source, tokens, text)
}

// Checks a source: its tokens and nodes, what was found, and the statements that it holds, each into a lent table.
#[unsafe(no_mangle)]
pub extern "C" fn terkinoha_check_words(
    source: &[u8],
    tokens: &mut [u64],
    nodes: &mut [u64],
    diagnostics: &mut [u64],
    statements: &mut [u64],
) -> CheckAnswer
    ensures { CheckSource source.now (length tokens.old) (length nodes.old) (length diagnostics.old) (length statements.old)
        result tokens.new nodes.new diagnostics.new statements.new }
{
    checker::check_source(source, tokens, nodes, diagnostics, statements)
}

// ---- the bodies of a string

// Where the body of a string literal lies in the source, and where the walk over a string's bodies goes on. All zero: there
// is none. C reads it, so `found` is a word.
#[repr(C)]
#[derive(Clone, Copy, Default)]
pub struct Body {
    pub found: u64,
    pub start: u64,
    pub end: u64,
    pub next: u64,
}

// The first literal among the lexemes of a text from `at` on.
fn literal_from(text: &[u8], at: usize) -> Option<Lexeme>
    ensures { FirstOf text.now at result }
{
    for found in Scanner::at(text, at) {
        if let LexemeKind::Str = found.kind {
            return Some(found);
        }
    }
    None
}

// The first body that a part of the source has, from `at` up to `end`.
#[unsafe(no_mangle)]
pub extern "C" fn terkinoha_next_body(source: &[u8], at: u64, end: u64) -> Body
    ensures { NextBody source.now at end result }
{
    let to = end as usize;
    if source.len() < to {
        return Body::default();
    }
    match literal_from(&source[..to], at as usize) {
        Some(literal) => Body {
            found: 1,
            start: literal.start as u64 + 1,
            end: literal.end as u64 - 1,
            next: literal.end as u64,
        },
        None => Body::default(),
    }
}

// The body numbered `i`, from 0, of a string token that spans the source from `start` up to `end`.
#[unsafe(no_mangle)]
pub extern "C" fn terkinoha_body_at(source: &[u8], start: u64, end: u64, i: u64) -> Body
    ensures { BodyAt source.now start end i result }
{
    let mut body = terkinoha_next_body(source, start, end);
    for n in 0..i {
        if body.found == 0 {
            return body;
        }
        body = terkinoha_next_body(source, body.next, end);
    }
    body
}
