// Diagnostics: a line has its place, `E` or `W`, its kind, and its fields in the order of check.rs. What a row was is read by the
// crate `findings`.
use findings::{Diagnostic, Side, What};
use printing::output::Output;
use rows::{DiagnosticRow, Text, Ty, Type};
use showing_held::{texts, types};
use wide::Wide;

// The place, the severity and the kind.
fn start(out: &mut Output<impl Print + Eprint>, d: Diagnostic) {
    let kinds = b"\
        - UnknownName UnknownItem - UnknownModule NotImported NotAModule NotAValue AlreadyBound NoMembers OperandType \
        NotCallable TooManyArgs TooFewArgs - - - - - ArgType - VoidValue IntegralTooLarge MultipleImports DiscardedValue \
        Truncated Overflow";
    let what = d.what;
    let kind = what.kind();
    out.pair(d.line, d.column);
    out.word(b"- E W", findings::severity(kind));
    out.byte(b' ');
    out.word(kinds, kind);
}

// A blank, and a name.
fn named(out: &mut Output<impl Print + Eprint>, name: &[u8]) {
    out.byte(b' ');
    out.text(name);
}

// A blank, and a type: a function is shown with its name.
fn typed(out: &mut Output<impl Print + Eprint>, name: &[u8], ty: Type) {
    out.byte(b' ');
    types::word(out, ty.kind);
    if ty.kind == Ty::FUNCTION {
        named(out, name);
    }
}

// A blank, and a type that is wanted, which is no function.
fn wanted(out: &mut Output<impl Print + Eprint>, ty: u64) {
    out.byte(b' ');
    types::word(out, ty);
}

// The operator, its side, and the type that it wants there.
fn operand(out: &mut Output<impl Print + Eprint>, side: Side, ty: u64) {
    out.text(b" / ");
    out.word(b"- left right", side.number());
    wanted(out, ty);
}

// The function, how many arguments it is given, and how many it takes.
fn counted(out: &mut Output<impl Print + Eprint>, name: &[u8], many: u64, most: u64) {
    named(out, name);
    out.field(many);
    out.field(most);
}

// The function, its parameter, and the type that it wants there.
fn argument(out: &mut Output<impl Print + Eprint>, text: &[u8], f: u64, i: u64, ty: u64) {
    texts::entry(out, text, f);
    texts::param(out, text, f, i);
    wanted(out, ty);
}

// A value that was cut.
fn value(out: &mut Output<impl Print + Eprint>, n: Wide) {
    out.byte(b' ');
    out.wide(n);
}

// What a kind shows.
fn fields(out: &mut Output<impl Print + Eprint>, name: &[u8], text: &[u8], what: What) {
    match what {
        What::UnknownItem(m) => {
            named(out, name);
            texts::entry(out, text, m);
        }
        What::AlreadyBound(line, column) => {
            named(out, name);
            out.field(line);
            out.field(column);
        }
        What::NoMembers(ty) => typed(out, name, ty),
        What::OperandType(side, ty, found) => {
            operand(out, side, ty);
            typed(out, name, found);
        }
        What::NotCallable(ty) => typed(out, name, ty),
        What::TooManyArgs(_, many, most) => counted(out, name, many, most),
        What::TooFewArgs(_, many, most) => counted(out, name, many, most),
        What::ArgType(f, i, ty, found) => {
            argument(out, text, f, i, ty);
            typed(out, name, found);
        }
        What::VoidValue => {}
        What::IntegralTooLarge => {}
        What::DiscardedValue(ty) => typed(out, name, ty),
        What::Truncated(n, ty) => {
            value(out, n);
            typed(out, name, ty);
        }
        What::Overflow(found, ty) => {
            typed(out, name, found);
            wanted(out, ty);
        }
        _ => named(out, name),
    }
}

// The line of a finding that shows a name, or none.
fn line(out: &mut Output<impl Print + Eprint>, name: &[u8], text: &[u8], d: Diagnostic) {
    let what = d.what;
    start(out, d);
    fields(out, name, text, what);
    out.byte(b'\n');
}

// A name is a part of the source or of the constant table's text.
fn line_of<'a>(
    out: &mut Output<impl Print + Eprint>,
    source: &'a [u8],
    text: &'a [u8],
    row: DiagnosticRow,
) {
    let from_table = row.text == Text::TABLE;
    let start_of = row.start as usize;
    let end_of = row.end as usize;
    let name = constants::name_text(from_table, source, text, start_of, end_of);
    let Some(d) = findings::reading::read(row) else {
        out.text(b"- no finding has such a row\n");
        return;
    };
    line(out, name, text, d);
}

// The row's line. Where it is numbered, the number of its statement and a blank stand before it.
fn line_in<'a>(
    out: &mut Output<impl Print + Eprint>,
    source: &'a [u8],
    text: &'a [u8],
    row: DiagnosticRow,
    numbered: bool,
) {
    if numbered {
        out.number(row.statement);
        out.byte(b' ');
    }
    line_of(out, source, text, row);
}

// The first `count` rows of the table, or as many as it has.
pub fn diagnostics<'a>(
    out: &mut Output<impl Print + Eprint>,
    source: &'a [u8],
    text: &'a [u8],
    diags: &[u64],
    count: u64,
    numbered: bool,
) {
    let rows = (diags.len() / DiagnosticRow::WORDS) as u64;
    for i in 0..count.min(rows) {
        let row = rows::diagnostic_row(diags, i as usize);
        line_in(out, source, text, row, numbered);
    }
}

// How many errors and warnings there were.
fn found(out: &mut Output<impl Print + Eprint>, errors: u64, warnings: u64) {
    out.text(b"errors");
    out.field(errors);
    out.text(b" warnings");
    out.field(warnings);
}

// The line with the counts.
pub fn counts(out: &mut Output<impl Print + Eprint>, errors: u64, warnings: u64) {
    found(out, errors, warnings);
    out.byte(b'\n');
}

// The same line, with how many names were compared.
pub fn counts_compared(
    out: &mut Output<impl Print + Eprint>,
    errors: u64,
    warnings: u64,
    comparisons: u64,
) {
    found(out, errors, warnings);
    out.text(b" comparisons");
    out.field(comparisons);
    out.byte(b'\n');
}
