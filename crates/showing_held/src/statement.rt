// Statements: a line has its place, its kind, of a `let` its slot and its name, and its expression. The rows of an expression's parts
// follow its own, each before its own parts, so one walk along the rows shows them all.
ghost use Rattle.std.specs.Prelude.{◌≤◌, length};
ghost use Rattle.language.specs.Findings.{stmt_width};

use crate::brackets::Open;
use crate::{brackets, expression};
use printing::output::Output;
use printing::token;
use rows::{StatementRow, TokenRow};
use values::Term;

// The name at a place: nothing where no token stands there.
fn name(
    out: &mut Output<impl Print + Eprint>,
    source: &[u8],
    tokens: &[u64],
    line: u64,
    column: u64,
) {
    for i in 0..tokens.len() / TokenRow::WORDS {
        let t = rows::token_row(tokens, i);
        if (t.line == line) & (t.column == column) {
            token::show_value(out, source, t);
            return;
        }
    }
}

// A blank, the slot of a `let`, and the name that it stands at.
fn bound(out: &mut Output<impl Print + Eprint>, source: &[u8], tokens: &[u64], row: &[u64])
    requires { stmt_width ≤ length row.now }
{
    out.field(row[StatementRow::SLOT]);
    out.byte(b' ');
    name(
        out,
        source,
        tokens,
        row[StatementRow::LINE],
        row[StatementRow::COLUMN],
    );
}

// What stands before the expression of a statement.
fn start(out: &mut Output<impl Print + Eprint>, source: &[u8], tokens: &[u64], row: &[u64])
    requires { stmt_width ≤ length row.now }
{
    let kinds = b"- Let Emit Wait Eval Discard";
    out.text(b"stmt ");
    out.pair(row[StatementRow::LINE], row[StatementRow::COLUMN]);
    out.word(kinds, row[StatementRow::KIND]);
    if row[StatementRow::KIND] == StatementRow::LET {
        bound(out, source, tokens, row);
    }
    out.byte(b' ');
}

// What stands before an argument: the number of its parameter.
fn argument(out: &mut Output<impl Print + Eprint>, row: &[u64])
    requires { stmt_width ≤ length row.now }
{
    out.text(b" (arg");
    out.field(row[StatementRow::SLOT]);
    out.byte(b' ');
}

// What stands before the expression of a row.
fn before(out: &mut Output<impl Print + Eprint>, source: &[u8], tokens: &[u64], row: &[u64])
    requires { stmt_width ≤ length row.now }
{
    let kind = row[StatementRow::KIND];
    match kind {
        StatementRow::CALLEE | StatementRow::LEFT => {}
        StatementRow::ARGUMENT => argument(out, row),
        StatementRow::RIGHT => out.byte(b' '),
        _ => start(out, source, tokens, row),
    }
}

// A row, where so many expressions are open: it opens one more if it has parts, and else closes those that it ends. Answers
// how many are open then.
fn show(
    out: &mut Output<impl Print + Eprint>,
    source: &[u8],
    text: &[u8],
    tokens: &[u64],
    row: &[u64],
    stack: &mut [u64; Open::ROOM * Open::WORDS],
    depth: usize,
) -> usize
    requires stmt_width_in_bounds { stmt_width ≤ length row.now }
    requires depth_bound { depth ≤ 96 }
    ensures { result ≤ 96 }
{
    let kind = row[StatementRow::KIND];
    let high = row[StatementRow::HIGH];
    let low = row[StatementRow::LOW];
    let form = row[StatementRow::FORM];
    before(out, source, tokens, row);
    expression::start(out, row);
    match form {
        // the callee, and then its arguments
        Term::CALL => brackets::push(stack, depth, high, kind, low),
        Term::SLASH => brackets::push(stack, depth, 1, kind, 0),
        _ => {
            expression::leaf(out, source, text, tokens, row);
            brackets::close(out, text, stack, depth, kind)
        }
    }
}

// The first `count` rows of the table, or as many as it has.
pub fn statements(
    out: &mut Output<impl Print + Eprint>,
    source: &[u8],
    text: &[u8],
    tokens: &[u64],
    stmts: &[u64],
    count: u64,
) {
    let mut stack = [0u64; Open::ROOM * Open::WORDS];
    let mut depth: usize = 0;
    let rows = (stmts.len() / StatementRow::WORDS) as u64;
    for i in 0..count.min(rows) {
        let word = i as usize * StatementRow::WORDS;
        let row = &stmts[word..word + StatementRow::WORDS];
        depth = show(out, source, text, tokens, row, &mut stack, depth);
    }
}
