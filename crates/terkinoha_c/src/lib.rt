#![tactic(auto)]
// What C links: the calls that include/terkinoha.h declares, under their names. A crate is a library or a static library, so that
// the crate `terkinoha` has the calls for Rattle, with all that is said and proved of them, and each of these hands one on and
// promises the same.
ghost use Rattle.std.specs.Prelude.{◌≡◌, length};
ghost use Rattle.scan.specs.Entry.{ScanLine};
ghost use Rattle.lex.specs.Entry.{LexSource};
ghost use Rattle.parse.specs.Entry.{ParseSource};
ghost use Rattle.canon.specs.Entry.{CanonSource};
ghost use Rattle.checker.specs.Entry.{CheckSource};
ghost use Rattle.terkinoha.specs.Bodies.{NextBody, BodyAt};
ghost use Rattle.terkinoha.specs.Version.{version};

use canon::Canonised;
use checker::CheckAnswer;
use lex::Lexed;
use parse::ParseAnswer;
use scan::Scanned;
use terkinoha::Body;

// The version of the header that this code goes with.
#[unsafe(no_mangle)]
pub extern "C" fn terkinoha_version() -> u64
    ensures { result ≡ version }
{
    terkinoha::terkinoha_version()
}

// Scans a line, which may hold byte 10, into a lent table of lexemes.
#[unsafe(no_mangle)]
pub extern "C" fn terkinoha_scan_words(line: &[u8], lexemes: &mut [u64]) -> Scanned
    ensures { ScanLine line.now (length lexemes.old) result lexemes.new }
{
    terkinoha::terkinoha_scan_words(line, lexemes)
}

// Lexes a source into a lent table of tokens.
#[unsafe(no_mangle)]
pub extern "C" fn terkinoha_lex_words(source: &[u8], tokens: &mut [u64]) -> Lexed
    ensures { LexSource source.now (length tokens.old) result tokens.new }
{
    terkinoha::terkinoha_lex_words(source, tokens)
}

// Parses a source into a lent table of tokens and a lent table of nodes.
#[unsafe(no_mangle)]
pub extern "C" fn terkinoha_parse_words(
    source: &[u8],
    tokens: &mut [u64],
    nodes: &mut [u64],
) -> ParseAnswer
    ensures { ParseSource source.now (length tokens.old) (length nodes.old) result tokens.new nodes.new }
{
    terkinoha::terkinoha_parse_words(source, tokens, nodes)
}

// Lexes a source into a lent table of tokens, and writes its canonical text to a lent text.
#[unsafe(no_mangle)]
pub extern "C" fn terkinoha_canonicalise_words(
    source: &[u8],
    tokens: &mut [u64],
    text: &mut [u8],
) -> Canonised
    ensures { CanonSource source.now (length tokens.old) (length text.old) result tokens.new text.new }
{
    terkinoha::terkinoha_canonicalise_words(source, tokens, text)
}

// Checks a source: its tokens and nodes, what was found, and the statements that it holds, each into a lent table.
#[unsafe(no_mangle)]
pub extern "C" fn terkinoha_check_words(
    source: &[u8],
    tokens: &mut [u64],
    nodes: &mut [u64],
    diagnostics: &mut [u64],
    statements: &mut [u64],
) -> CheckAnswer
    ensures { CheckSource source.now (length tokens.old) (length nodes.old) (length diagnostics.old) (length statements.old)
        result tokens.new nodes.new diagnostics.new statements.new }
{
    terkinoha::terkinoha_check_words(source, tokens, nodes, diagnostics, statements)
}

// The first body that a part of the source has, from `at` up to `end`.
#[unsafe(no_mangle)]
pub extern "C" fn terkinoha_next_body(source: &[u8], at: u64, end: u64) -> Body
    ensures { NextBody source.now at end result }
{
    terkinoha::terkinoha_next_body(source, at, end)
}

// The body numbered `i`, from 0, of a string token that spans the source from `start` up to `end`.
#[unsafe(no_mangle)]
pub extern "C" fn terkinoha_body_at(source: &[u8], start: u64, end: u64, i: u64) -> Body
    ensures { BodyAt source.now start end i result }
{
    terkinoha::terkinoha_body_at(source, start, end, i)
}
