#![tactic(auto)]
// Runs a proved library on the sources of standard input and prints its answers in the oracle's format.
//
// The input has parts. The first line of a part says what to run and the room of each lent table: `scan ROWS`, `lex ROWS`,
// `canon TOKENS BYTES`, `parse TOKENS NODES`, `check TOKENS NODES DIAGNOSTICS STATEMENTS`, or `grouped` with the same four. Each
// line after it is a source in hex, up to one that starts with `+`: what stands after that is the first line of a further part.
// An answer ends with a line `--`. Where the input is none of this, one line says `bad input` and nothing follows. Where a read or
// a write fails, a line on standard error says so and nothing follows: what was answered before are whole answers to sources that
// were read whole.
mod lent;
mod sources;

use printing::input::{Line, Unread};
use printing::output::Output;
use printing::{header, input, streams};
use std::env::Env;

pub fn run(rt: &(impl Env + Input + Print + Eprint)) {
    if streams::no_arguments(rt) {
        run_all(rt);
    }
}

fn run_all(rt: &(impl Input + Print + Eprint)) {
    let mut chunk = [0u8; 262144];
    let mut buffer = [0u8; 65536];
    run_in(rt, &mut chunk, &mut buffer);
}

// Runs one part. Answers what ended it.
fn part(
    rt: &(impl Input + Print + Eprint),
    chunk: &mut [u8],
    unread: Unread,
    buffer: &mut [u8],
) -> Line {
    // the first line is looked for in one chunk, so that is read whole
    let Some(end) = input::fill(rt, chunk, unread) else {
        return Line::Failed;
    };
    let Some(head) = header::read(input::first(chunk, end)) else {
        return Line::Bad;
    };
    let numbers = head.numbers;
    let sources = Unread {
        at: head.next,
        end: end,
    };
    lent::run(rt, head.mode, numbers, chunk, sources, buffer)
}

// What is written where no part follows: nothing, if that is the end of the input, or if reading or writing failed.
fn last(rt: &(impl Print + Eprint), line: Line, buffer: &mut [u8]) {
    if let Line::Bad = line {
        Output::new(rt, buffer).bad_input();
    }
}

fn run_in(rt: &(impl Input + Print + Eprint), chunk: &mut [u8], buffer: &mut [u8]) {
    let mut unread = Unread { at: 0, end: 0 };
    // nothing says that the input ends, so the parts are counted
    for _ in 0u64..1000000000000 {
        let line = part(rt, chunk, unread, buffer);
        let Line::Part(rest) = line else {
            last(rt, line, buffer);
            return;
        };
        unread = rest;
    }
}
