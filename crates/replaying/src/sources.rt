// The sources of standard input, one after the other.
use printing::header::Mode;
use printing::input;
use printing::input::{Line, Unread};
use printing::output::Output;
use showing::{canon_mode, lex_mode, scan_mode};

// The answer for one source.
fn answer(
    out: &mut Output<impl Print + Eprint>,
    mode: Mode,
    source: &[u8],
    tokens: &mut [u64],
    nodes: &mut [u64],
    diags: &mut [u64],
    stmts: &mut [u64],
    text: &mut [u8],
) {
    match mode {
        Mode::Scan => scan_mode::answer(out, source, tokens),
        Mode::Lex => lex_mode::answer(out, source, tokens),
        Mode::Canon => canon_mode::answer(out, source, tokens, text),
        Mode::Parse => showing_tree::answer(out, source, tokens, nodes),
        Mode::Check => showing_check::answer(out, source, tokens, nodes, diags, stmts),
        Mode::Grouped => showing_check::grouped(out, source, tokens, nodes, diags, stmts),
    }
}

// What ended the sources, once their answers are written.
fn ended(out: &mut Output<impl Print + Eprint>, line: Line) -> Line {
    if out.flush() {
        return line;
    }
    Line::Failed
}

// The answers for the sources that are not yet read, one after the other. Answers what ended them.
pub fn answers(
    rt: &(impl Input + Print + Eprint),
    mode: Mode,
    chunk: &mut [u8],
    start: Unread,
    source: &mut [u8],
    tokens: &mut [u64],
    nodes: &mut [u64],
    diags: &mut [u64],
    stmts: &mut [u64],
    text: &mut [u8],
    buffer: &mut [u8],
) -> Line {
    let mut unread = start;
    let mut out = Output::new(rt, buffer);
    // nothing says that the input ends, so the sources are counted
    for _ in 0u64..1000000000000 {
        let line = input::next(rt, chunk, unread, source);
        let Line::Source(size, rest) = line else {
            return ended(&mut out, line);
        };
        let given = input::first(source, size);
        answer(&mut out, mode, given, tokens, nodes, diags, stmts, text);
        out.close();
        if out.failed() {
            return Line::Failed;
        }
        unread = rest;
    }
    Line::Bad
}
