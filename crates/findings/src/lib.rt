#![tactic(auto)]
// Findings: what a check finds, from the kind and its token to a row of the diagnostic table and back. `report` is the one
// place that counts a finding and stores its row.
ghost use Rattle.std.specs.Prelude.{◌≡◌, ◌+◌, ◌<◌, ◌≤◌};
ghost use Rattle.findings.specs.Findings.{side_number, kind_number, severity_number, shows_name, placed, at_token, type_text, function_type, named_row, typed_row, bare_row, row_of, shown_row, plus_finding, most_compared, plus_search, Reports};

pub mod reading;

use constants::Constants;
use rows::{DiagnosticRow, Text, Token, Ty, Type};
use wide::Wide;

// The operand of `/` that a finding is about.
#[derive(Clone, Copy)]
pub enum Side {
    Left,
    Right,
}

// C reads the numbers of sides, kinds and severities in rows: they are part of its interface.
impl Side {
    pub const LEFT: u64 = 1;

    pub const RIGHT: u64 = 2;

    pub fn number(self) -> u64
        ensures { result ≡ side_number self }
    {
        match self {
            Side::Left => Side::LEFT,
            Side::Right => Side::RIGHT,
        }
    }
}

// What was found: check.rs `SemanticErrorKind` and `WarningKind`, as far as the port goes. The name that a kind shows is in
// its `Diagnostic`.
#[derive(Clone, Copy)]
pub enum What {
    UnknownName,
    // the entry of the innermost module in the constant table
    UnknownItem(u64),
    UnknownModule,
    NotImported,
    NotAModule,
    NotAValue,
    // the line and the column where the name was bound first
    AlreadyBound(u64, u64),
    NoMembers(Type),
    // the side, the number of the type wanted, the type found
    OperandType(Side, u64, Type),
    // the type found
    NotCallable(Type),
    // the function's entry, how many arguments are given, how many it takes
    TooManyArgs(u64, u64, u64),
    TooFewArgs(u64, u64, u64),
    // the function's entry, the parameter's number from 0, the number of the type wanted, the type found
    ArgType(u64, u64, u64, Type),
    VoidValue,
    IntegralTooLarge,
    MultipleImports,
    DiscardedValue(Type),
    // the value, and the type that it was cut to
    Truncated(Wide, Type),
    // the type found, and the number of the narrower one that it is used as
    Overflow(Type, u64),
}

impl What {
    // The numbers of the kinds, in the order of check.rs, `SemanticErrorKind` first, then `WarningKind`. Those between are
    // not given yet.
    pub const UNKNOWN_NAME: u64 = 1;

    pub const UNKNOWN_ITEM: u64 = 2;

    pub const UNKNOWN_MODULE: u64 = 4;

    pub const NOT_IMPORTED: u64 = 5;

    pub const NOT_A_MODULE: u64 = 6;

    pub const NOT_A_VALUE: u64 = 7;

    pub const ALREADY_BOUND: u64 = 8;

    pub const NO_MEMBERS: u64 = 9;

    pub const OPERAND_TYPE: u64 = 10;

    pub const NOT_CALLABLE: u64 = 11;

    pub const TOO_MANY_ARGS: u64 = 12;

    pub const TOO_FEW_ARGS: u64 = 13;

    pub const ARG_TYPE: u64 = 19;

    pub const VOID_VALUE: u64 = 21;

    pub const INTEGRAL_TOO_LARGE: u64 = 22;

    pub const MULTIPLE_IMPORTS: u64 = 23;

    pub const DISCARDED_VALUE: u64 = 24;

    pub const TRUNCATED: u64 = 25;

    pub const OVERFLOW: u64 = 26;

    // The operator of an operand.
    pub const SLASH: u64 = 1;

    pub fn kind(self) -> u64
        ensures { result ≡ kind_number self }
    {
        match self {
            What::UnknownName => What::UNKNOWN_NAME,
            What::UnknownItem(_) => What::UNKNOWN_ITEM,
            What::UnknownModule => What::UNKNOWN_MODULE,
            What::NotImported => What::NOT_IMPORTED,
            What::NotAModule => What::NOT_A_MODULE,
            What::NotAValue => What::NOT_A_VALUE,
            What::AlreadyBound(_, _) => What::ALREADY_BOUND,
            What::NoMembers(_) => What::NO_MEMBERS,
            What::OperandType(_, _, _) => What::OPERAND_TYPE,
            What::NotCallable(_) => What::NOT_CALLABLE,
            What::TooManyArgs(_, _, _) => What::TOO_MANY_ARGS,
            What::TooFewArgs(_, _, _) => What::TOO_FEW_ARGS,
            What::ArgType(_, _, _, _) => What::ARG_TYPE,
            What::VoidValue => What::VOID_VALUE,
            What::IntegralTooLarge => What::INTEGRAL_TOO_LARGE,
            What::MultipleImports => What::MULTIPLE_IMPORTS,
            What::DiscardedValue(_) => What::DISCARDED_VALUE,
            What::Truncated(_, _) => What::TRUNCATED,
            What::Overflow(_, _) => What::OVERFLOW,
        }
    }
}

// A finding and its place. `start` and `end` are the span of the name that its kind shows, 0 where it shows none.
#[derive(Clone, Copy)]
pub struct Diagnostic {
    pub line: u64,
    pub column: u64,
    pub start: u64,
    pub end: u64,
    pub what: What,
}

impl Diagnostic {
    pub const ERROR: u64 = 1;

    pub const WARNING: u64 = 2;

    // A finding at a token.
    pub fn at(tok: Token, what: What) -> Diagnostic
        ensures { result ≡ at_token tok what }
    {
        placed(tok.line, tok.column, tok.start, tok.end, what)
    }
}

// How many names are bound and imported, how many slots are taken, how many errors and warnings there are, how many rows the held
// statements have, the number of the statement that is judged (1 for the first, 0 before it), and how many names were compared in
// searches among the bindings.
#[derive(Clone, Copy)]
pub struct Counts {
    pub used: usize,
    pub imported: usize,
    pub slots: usize,
    pub errors: usize,
    pub warnings: usize,
    pub statements: usize,
    pub number: u64,
    pub comparisons: usize,
}

// The severity of a kind.
#[tactic(auto, unfolding(crate::specs::Findings::severity_number))]
pub fn severity(kind: u64) -> u64
    ensures { result ≡ severity_number kind }
{
    match kind {
        What::MULTIPLE_IMPORTS | What::DISCARDED_VALUE | What::TRUNCATED | What::OVERFLOW => {
            Diagnostic::WARNING
        }
        _ => Diagnostic::ERROR,
    }
}

// Whether a kind shows the name of its token. The others show a type or nothing.
#[tactic(auto, unfolding(crate::specs::Findings::shows_name))]
fn shows_name(kind: u64) -> bool
    ensures { result ≡ shows_name kind }
{
    (kind <= What::ALREADY_BOUND) | (kind == What::MULTIPLE_IMPORTS)
}

// A finding at a place, with the span of its name where its kind shows one.
#[tactic(auto, unfolding(crate::specs::Findings::placed))]
fn placed(line: u64, column: u64, start: u64, end: u64, what: What) -> Diagnostic
    ensures { result ≡ placed line column start end what }
{
    if shows_name(what.kind()) {
        return Diagnostic {
            line,
            column,
            start,
            end,
            what,
        };
    }
    Diagnostic {
        line,
        column,
        start: 0,
        end: 0,
        what,
    }
}

// ---- rows

// The text that a type shows: a function's name, in the constant table's text.
#[tactic(auto, using(crate::proofs::Texts::shown_text), unfolding(crate::specs::Findings::type_text))]
pub fn type_text(ty: Type) -> Text
    ensures { result ≡ type_text ty }
{
    if ty.kind != Ty::FUNCTION {
        return Text::default();
    }
    let table = Constants::new();
    let rows = table.rows;
    Text {
        from: Text::TABLE,
        start: constants::entry_word(&rows, ty.entry, Constants::NAME_START),
        end: constants::entry_word(&rows, ty.entry, Constants::NAME_END),
    }
}

// The row of a finding that shows a text, and perhaps a type and three numbers.
fn shown(d: Diagnostic, text: Text, ty: u64, first: u64, second: u64, third: u64) -> DiagnosticRow
    ensures { result ≡ shown_row d text ty first second third }
{
    let what = d.what;
    let kind = what.kind();
    DiagnosticRow {
        line: d.line,
        column: d.column,
        severity: severity(kind),
        kind,
        text: text.from,
        start: text.start,
        end: text.end,
        ty,
        first,
        second,
        third,
        statement: 0,
    }
}

// One that shows its name, and perhaps two numbers.
fn named(d: Diagnostic, first: u64, second: u64) -> DiagnosticRow
    ensures { result ≡ named_row d first second }
{
    let text = Text {
        from: Text::SOURCE,
        start: d.start,
        end: d.end,
    };
    shown(d, text, Ty::NONE, first, second, 0)
}

// One that shows a type, and perhaps three numbers.
fn typed(d: Diagnostic, ty: Type, first: u64, second: u64, third: u64) -> DiagnosticRow
    ensures { result ≡ typed_row d ty first second third }
{
    shown(d, type_text(ty), ty.kind, first, second, third)
}

// One that shows nothing more.
fn bare(d: Diagnostic) -> DiagnosticRow
    ensures { result ≡ bare_row d }
{
    shown(d, Text::default(), Ty::NONE, 0, 0, 0)
}

// The type of a function, by its entry.
fn function(f: u64) -> Type
    ensures { result ≡ function_type f }
{
    Type {
        kind: Ty::FUNCTION,
        entry: f,
    }
}

// A finding's row but for the number of its statement, which is 0 here.
#[tactic(auto, unfolding(crate::specs::Findings::row_of))]
pub fn row_of(d: Diagnostic) -> DiagnosticRow
    ensures { result ≡ row_of d }
{
    let what = d.what;
    match what {
        What::UnknownItem(m) => named(d, m, 0),
        What::AlreadyBound(line, column) => named(d, line, column),
        What::NoMembers(ty) => typed(d, ty, 0, 0, 0),
        What::OperandType(side, wanted, ty) => typed(d, ty, side.number(), wanted, What::SLASH),
        What::NotCallable(ty) => typed(d, ty, 0, 0, 0),
        What::TooManyArgs(f, many, wanted) => typed(d, function(f), many, wanted, 0),
        What::TooFewArgs(f, many, wanted) => typed(d, function(f), many, wanted, 0),
        What::ArgType(f, i, wanted, ty) => typed(d, ty, f, i, wanted),
        What::VoidValue => bare(d),
        What::IntegralTooLarge => bare(d),
        What::DiscardedValue(ty) => typed(d, ty, 0, 0, 0),
        What::Truncated(n, ty) => typed(d, ty, n.lo, n.hi, 0),
        What::Overflow(ty, wanted) => typed(d, ty, wanted, 0, 0),
        _ => named(d, 0, 0),
    }
}

// ---- reporting

// One error or one warning more.
#[tactic(auto, unfolding(crate::specs::Findings::plus_finding))]
fn counted(counts: Counts, what: What) -> Counts
    requires { counts.errors + counts.warnings < 4294967296 }
    ensures { result ≡ plus_finding counts what }
{
    if severity(what.kind()) == Diagnostic::ERROR {
        return Counts {
            errors: counts.errors + 1,
            ..counts
        };
    }
    Counts {
        warnings: counts.warnings + 1,
        ..counts
    }
}

// A search that compared so many names.
pub fn searched(counts: &mut Counts, compared: usize)
    requires { counts.old.comparisons + compared ≤ most_compared }
    ensures { counts.new ≡ plus_search counts.old compared }
{
    counts.comparisons += compared;
}

// Counts a finding of the statement that is judged and stores its row, where the table has room for it.
// The table stands beside its counts, and not in a struct with them: each function that is lent such a struct would promise besides
// that it holds the same table still.
pub fn report(diags: &mut [u64], counts: &mut Counts, d: Diagnostic)
    requires { counts.old.errors + counts.old.warnings < 4294967296 }
    ensures { Reports counts.old d diags.old counts.new diags.new }
{
    let so_far = *counts;
    let row = row_of(d);
    let words: [u64; DiagnosticRow::WORDS] = [
        row.line,
        row.column,
        row.severity,
        row.kind,
        row.text,
        row.start,
        row.end,
        row.ty,
        row.first,
        row.second,
        row.third,
        so_far.number,
    ];
    table::put_row(diags, so_far.errors + so_far.warnings, &words);
    *counts = counted(so_far, d.what);
}
