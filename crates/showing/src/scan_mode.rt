// The mode `scan`: each source is one line, and each lexeme a line of the answer.
ghost use Rattle.std.specs.Prelude.{◌+◌, ◌≤◌, length};
ghost use Rattle.language.specs.Tables.{lexeme_width};

use lexemes::LexemeKind;
use printing::output::Output;
use printing::{token, verdict};
use rows::{LexemeRow, Token, Verdict};

// A row of the table of lexemes. A lexeme has no line and no column, and neither is shown.
#[derive(Clone, Copy)]
struct Row {
    class: u64,
    token: Token,
}

// The words of the row that starts at word `at`.
fn row_at(table: &[u64], at: usize) -> Row
    requires { at + lexeme_width ≤ length table.now }
{
    Row {
        class: table[at + LexemeRow::CLASS],
        token: Token {
            kind: table[at + LexemeRow::KIND],
            line: 0,
            column: 0,
            start: table[at],
            end: table[at + LexemeRow::END],
            lo: table[at + LexemeRow::LOW],
            hi: table[at + LexemeRow::HIGH],
        },
    }
}

fn string(out: &mut Output<impl Print + Eprint>, source: &[u8], t: Token) {
    out.text(b"Str x");
    out.hex(scan::body(source, t.start as usize, t.end as usize));
}

fn error(out: &mut Output<impl Print + Eprint>, t: Token) {
    out.text(b"error ");
    token::show_error(out, t.kind, t.lo);
}

// What a lexeme is, after its place.
fn what(out: &mut Output<impl Print + Eprint>, source: &[u8], row: Row) {
    let class = row.class;
    match class {
        LexemeKind::TRIVIA => out.text(b"Trivia"),
        LexemeKind::STR => string(out, source, row.token),
        LexemeKind::TOK => token::show(out, source, row.token),
        LexemeKind::ERROR => error(out, row.token),
        _ => {}
    }
}

fn lexeme(out: &mut Output<impl Print + Eprint>, source: &[u8], row: Row) {
    let t = row.token;
    out.pair(t.start, t.end);
    what(out, source, row);
    out.byte(b'\n');
}

// The first `count` rows of the table, or as many as it has.
fn lexemes(out: &mut Output<impl Print + Eprint>, source: &[u8], table: &[u64], count: u64) {
    let rows = (table.len() / LexemeRow::WORDS) as u64;
    for i in 0..count.min(rows) {
        lexeme(out, source, row_at(table, i as usize * LexemeRow::WORDS));
    }
}

pub fn answer(out: &mut Output<impl Print + Eprint>, source: &[u8], table: &mut [u64]) {
    let scanned = scan::scan_line(source, table);
    let v = scanned.verdict;
    if v.number != Verdict::DONE {
        verdict::refused(out, v);
        return;
    }
    lexemes(out, source, table, scanned.lexemes);
}
