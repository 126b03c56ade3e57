// Expressions: what a row of the table of statements shows of its own one, its parts aside. A string of the source is shown as the
// list of its raw bodies.
ghost use Rattle.std.specs.Prelude.{◌≤◌, length};
ghost use Rattle.language.specs.Findings.{stmt_width};

use crate::{texts, types};
use printing::output::Output;
use printing::token;
use rows::{StatementRow, Text, Ty};
use values::Term;

// An address and its port.
fn sock4(out: &mut Output<impl Print + Eprint>, address: u64, port: u64) {
    out.quad(address);
    out.byte(b':');
    out.number(port);
}

// A value that is no string of the source.
fn plain(out: &mut Output<impl Print + Eprint>, text: &[u8], ty: u64, value: u64, second: u64) {
    match ty {
        Ty::BOOL => token::boolean(out, value),
        Ty::U8 | Ty::U16 | Ty::U32 | Ty::U64 => out.number(value),
        Ty::IP4 => out.quad(value),
        Ty::SOCK4 => sock4(out, value, second),
        Ty::BYTES => texts::hex(out, text, value, second),
        Ty::FUNCTION => texts::plain(out, text, value, second),
        _ => {}
    }
}

// A blank and the value.
fn value(
    out: &mut Output<impl Print + Eprint>,
    source: &[u8],
    text: &[u8],
    tokens: &[u64],
    row: &[u64],
)
    requires { stmt_width ≤ length row.now }
{
    let value = row[StatementRow::LOW];
    if row[StatementRow::TEXT] == Text::SOURCE {
        token::bodies(out, source, token::row_at(tokens, value as usize));
        return;
    }
    out.byte(b' ');
    plain(
        out,
        text,
        row[StatementRow::TYPE],
        value,
        row[StatementRow::HIGH],
    );
}

// A bracket, the word for its form, its place and a blank.
pub fn start(out: &mut Output<impl Print + Eprint>, row: &[u64])
    requires { stmt_width ≤ length row.now }
{
    out.byte(b'(');
    out.word(b"- const local call slash", row[StatementRow::FORM]);
    out.byte(b' ');
    out.pair(
        row[StatementRow::EXPRESSION_LINE],
        row[StatementRow::EXPRESSION_COLUMN],
    );
}

// What one without parts has after that: the number of a slot, or the type and the value of a constant.
pub fn leaf(
    out: &mut Output<impl Print + Eprint>,
    source: &[u8],
    text: &[u8],
    tokens: &[u64],
    row: &[u64],
)
    requires { stmt_width ≤ length row.now }
{
    if row[StatementRow::FORM] == Term::SLOT {
        out.number(row[StatementRow::LOW]);
        return;
    }
    types::word(out, row[StatementRow::TYPE]);
    value(out, source, text, tokens, row);
}
