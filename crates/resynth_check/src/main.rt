#![tactic(auto)]
// The check program: checks the source on standard input and prints what was found, or one line for a refusal. Where the source
// is not read whole, or arguments were given, it prints nothing, and a line on standard error says why.
ghost use Rattle.std.specs.Prelude.{◌≡◌, ◌*◌, length};
ghost use Rattle.language.specs.Tables.{token_width};
ghost use Rattle.language.specs.Sentences.{node_width};
ghost use Rattle.language.specs.Findings.{diag_width, stmt_width};
ghost use Rattle.language.specs.Samples.{program_tokens, program_nodes, program_diags, program_stmts};

use printing::output::Output;
use printing::{input, streams};
use rows::{DiagnosticRow, NodeRow, Source, StatementRow, TokenRow};

#[derive(Clone, Copy)]
struct Program {}

impl Program {
    // How many rows each table has.
    const TOKENS: usize = 2048;

    const NODES: usize = 2048;

    const DIAGNOSTICS: usize = 128;

    const STATEMENTS: usize = 512;
}

// Checks a source and writes the answer. What was counted and is not in it is said on standard error. It asks for the rooms
// that 01 names, so that those lent are these.
fn answer(
    rt: &(impl Print + Eprint),
    source: &[u8],
    tokens: &mut [u64],
    nodes: &mut [u64],
    diags: &mut [u64],
    stmts: &mut [u64],
    buffer: &mut [u8],
)
    requires { (length tokens.old ≡ program_tokens * token_width) × (length nodes.old ≡ program_nodes * node_width) × (length diags.old ≡ program_diags * diag_width) × (length stmts.old ≡ program_stmts * stmt_width) }
{
    let checked = checker::check_source(source, tokens, nodes, diags, stmts);
    let mut out = Output::new(rt, buffer);
    showing_check::report(&mut out, source, diags, checked);
    if out.flush() {
        showing_check::tell_unshown(rt, diags, checked);
    }
}

// Checks the source that is in `source` and has `size` bytes.
fn check(rt: &(impl Print + Eprint), source: &[u8], size: usize, buffer: &mut [u8]) {
    let mut tokens = [0u64; Program::TOKENS * TokenRow::WORDS];
    let mut nodes = [0u64; Program::NODES * NodeRow::WORDS];
    let mut diags = [0u64; Program::DIAGNOSTICS * DiagnosticRow::WORDS];
    let mut stmts = [0u64; Program::STATEMENTS * StatementRow::WORDS];
    answer(
        rt,
        input::first(source, size),
        &mut tokens,
        &mut nodes,
        &mut diags,
        &mut stmts,
        buffer,
    );
}

// Reads standard input into `source`, as much as fits, and checks that.
fn run(rt: &(impl Input + Print + Eprint), source: &mut [u8], buffer: &mut [u8]) {
    if let Some(size) = streams::read_full(rt, source, 0) {
        check(rt, source, size, buffer);
    }
}

fn check_input(rt: &(impl Input + Print + Eprint)) {
    // a byte longer than any source that is taken, so that one which is too long is still too long here
    let mut source = [0u8; Source::MOST_BYTES + 1];
    let mut buffer = [0u8; 65536];
    run(rt, &mut source, &mut buffer);
}

fn main(rt: HostRuntime) {
    if streams::no_arguments(&rt) {
        check_input(&rt);
    }
}
