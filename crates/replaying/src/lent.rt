// The tables that are lent, all on the stack. The first line of a part says how much of each; a mode looks at none but its
// own.
ghost use Rattle.std.specs.Prelude.{◌+◌, ◌*◌, ◌≤◌};
ghost use Rattle.language.specs.Tokens.{most_bytes};
ghost use Rattle.language.specs.Tables.{token_width};
ghost use Rattle.language.specs.Sentences.{node_width};
ghost use Rattle.language.specs.Findings.{diag_width, stmt_width};

use crate::sources;
use printing::header::Mode;
use printing::input::{Line, Unread};
use rows::{DiagnosticRow, LexemeRow, NodeRow, Source, StatementRow, TokenRow};

// How many rows each table has, and how many bytes a source and a text have.
#[derive(Clone, Copy)]
struct Lent {}

impl Lent {
    // one for each byte of a source, and one for its end
    const TOKENS: u64 = Source::MOST_BYTES as u64 + 1;

    const NODES: u64 = Source::MOST_BYTES as u64;

    const DIAGNOSTICS: u64 = 4096;

    const STATEMENTS: u64 = 4096;

    // more than any source that is taken and any text that is given has, so that one which is too long is so here
    const BYTES: u64 = Source::MOST_BYTES as u64 + 64;
}

// A room, or the most that a table here has.
fn at_most(room: u64, most: u64) -> usize
    ensures { result ≤ most }
{
    room.min(most) as usize
}

// The words of so many rows: of lexemes for the mode `scan`, else of tokens.
fn token_words(mode: Mode, rows: u64) -> usize
    ensures { result ≤ (most_bytes + 1) * token_width }
{
    let n = at_most(rows, Lent::TOKENS);
    if let Mode::Scan = mode {
        return n * LexemeRow::WORDS;
    }
    n * TokenRow::WORDS
}

// The words of so many rows of nodes.
fn node_words(rows: u64) -> usize
    ensures { result ≤ most_bytes * node_width }
{
    at_most(rows, Lent::NODES) * NodeRow::WORDS
}

// The words of so many rows of diagnostics.
fn diag_words(rows: u64) -> usize
    ensures { result ≤ 4096 * diag_width }
{
    at_most(rows, Lent::DIAGNOSTICS) * DiagnosticRow::WORDS
}

// The words of so many rows of statements.
fn stmt_words(rows: u64) -> usize
    ensures { result ≤ 4096 * stmt_width }
{
    at_most(rows, Lent::STATEMENTS) * StatementRow::WORDS
}

// Runs a mode, given the numbers of the first line. The second is for the nodes or, in the mode `canon`, for the text.
// Answers what ended the sources.
pub fn run(
    rt: &(impl Input + Print + Eprint),
    mode: Mode,
    numbers: [u64; 4],
    chunk: &mut [u8],
    unread: Unread,
    buffer: &mut [u8],
) -> Line {
    let token_end = token_words(mode, numbers[0]);
    let node_end = node_words(numbers[1]);
    let text_end = at_most(numbers[1], Lent::BYTES);
    let diag_end = diag_words(numbers[2]);
    let stmt_end = stmt_words(numbers[3]);
    let mut source = [0u8; Lent::BYTES as usize];
    let mut tokens = [0u64; Lent::TOKENS as usize * TokenRow::WORDS];
    let mut nodes = [0u64; Lent::NODES as usize * NodeRow::WORDS];
    let mut diags = [0u64; Lent::DIAGNOSTICS as usize * DiagnosticRow::WORDS];
    let mut stmts = [0u64; Lent::STATEMENTS as usize * StatementRow::WORDS];
    let mut text = [0u8; Lent::BYTES as usize];
    sources::answers(
        rt,
        mode,
        chunk,
        unread,
        &mut source,
        &mut tokens[0..token_end],
        &mut nodes[0..node_end],
        &mut diags[0..diag_end],
        &mut stmts[0..stmt_end],
        &mut text[0..text_end],
        buffer,
    )
}
