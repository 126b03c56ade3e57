// Reading a row of the diagnostic table back: what it was, or that no finding has such a row.
ghost use Rattle.std.specs.Prelude.{◌≡◌};
ghost use Rattle.constants.specs.Constants.{is_module, is_function_entry};
ghost use Rattle.findings.specs.Reading.{is_plain, is_type, sound_type, sound_what, sound_diagnostic, same_row, type_in, operand_in, truncated_in, guess_of, confirmed, read_of};

use crate::{Diagnostic, Side, What};
use constants::Constants;
use rows::{DiagnosticRow, Ty, Type};
use wide::Wide;

// ---- which findings rows can show

// Whether a number is that of a type that shows no entry.
#[tactic(auto, unfolding(crate::specs::Reading::is_plain))]
fn is_plain(n: u64) -> bool
    ensures { result ≡ is_plain n }
{
    ((Ty::VOID <= n) & (n <= Ty::TIME_JUMP)) | (n == Ty::INTEGER)
}

#[tactic(auto, unfolding(crate::specs::Reading::is_type))]
fn is_type(n: u64) -> bool
    ensures { result ≡ is_type n }
{
    is_plain(n) | (n == Ty::FUNCTION)
}

fn is_sound_function(k: u64) -> bool
    ensures { result ≡ is_function_entry k }
{
    let table = Constants::new();
    let rows = table.rows;
    constants::is_function(&rows, k)
}

// A function's type has its entry, any other none.
#[tactic(auto, unfolding(crate::specs::Reading::sound_type))]
fn is_sound_type(ty: Type) -> bool
    ensures { result ≡ sound_type ty }
{
    if ty.kind == Ty::FUNCTION {
        return is_sound_function(ty.entry);
    }
    is_plain(ty.kind) & (ty.entry == 0)
}

fn is_sound_module(k: u64) -> bool
    ensures { result ≡ is_module k }
{
    let table = Constants::new();
    let rows = table.rows;
    constants::is_module(&rows, k)
}

// An unknown item is missed in a module, what is called with arguments is a function, and an integer is below 2^127.
fn is_sound_what(what: What) -> bool
    ensures { result ≡ sound_what what }
{
    match what {
        What::UnknownItem(m) => is_sound_module(m),
        What::NoMembers(ty) => is_sound_type(ty),
        What::OperandType(_, wanted, ty) => is_type(wanted) & is_sound_type(ty),
        What::NotCallable(ty) => is_sound_type(ty),
        What::TooManyArgs(f, _, _) => is_sound_function(f),
        What::TooFewArgs(f, _, _) => is_sound_function(f),
        What::ArgType(f, _, wanted, ty) => {
            is_sound_function(f) & is_type(wanted) & is_sound_type(ty)
        }
        What::DiscardedValue(ty) => is_sound_type(ty),
        What::Truncated(n, ty) => (n.hi < 9223372036854775808) & is_sound_type(ty),
        What::Overflow(ty, wanted) => is_sound_type(ty) & is_type(wanted),
        _ => true,
    }
}

// And where the kind shows no name there is no span.
#[tactic(auto, unfolding(crate::specs::Reading::sound_diagnostic))]
fn is_sound(d: Diagnostic) -> bool
    ensures { result ≡ sound_diagnostic d }
{
    let what = d.what;
    let spanless = (d.start == 0) & (d.end == 0);
    is_sound_what(what) & (crate::shows_name(what.kind()) | spanless)
}

// ---- what a row was

// The same row, but for the number of the statement, which can be any.
#[tactic(auto, unfolding(crate::specs::Reading::same_row))]
fn same_row(a: DiagnosticRow, b: DiagnosticRow) -> bool
    ensures { result ≡ same_row a b }
{
    a == DiagnosticRow {
        statement: a.statement,
        ..b
    }
}

// The type that a row shows, a function by its name.
#[tactic(auto, unfolding(crate::specs::Reading::type_in))]
fn type_in(row: DiagnosticRow) -> Type
    ensures { result ≡ type_in row }
{
    if row.ty == Ty::FUNCTION {
        let table = Constants::new();
        let rows = table.rows;
        return Type {
            kind: row.ty,
            entry: constants::function_named(&rows, row.start, row.end),
        };
    }
    Type {
        kind: row.ty,
        entry: 0,
    }
}

// An operand's finding, by its side.
#[tactic(auto, unfolding(crate::specs::Reading::operand_in))]
fn operand_in(row: DiagnosticRow) -> Option<What>
    ensures { result ≡ operand_in row }
{
    let ty = type_in(row);
    if row.first == Side::LEFT {
        return Some(What::OperandType(Side::Left, row.second, ty));
    }
    if row.first == Side::RIGHT {
        return Some(What::OperandType(Side::Right, row.second, ty));
    }
    None
}

// What a row can have been, by its kind.
#[tactic(auto, unfolding(crate::specs::Reading::guess_by))]
fn guessed(row: DiagnosticRow) -> Option<What>
    ensures { result ≡ guess_of row }
{
    let kind = row.kind;
    let ty = type_in(row);
    let first = row.first;
    let second = row.second;
    match kind {
        What::UNKNOWN_NAME => Some(What::UnknownName),
        What::UNKNOWN_ITEM => Some(What::UnknownItem(first)),
        What::UNKNOWN_MODULE => Some(What::UnknownModule),
        What::NOT_IMPORTED => Some(What::NotImported),
        What::NOT_A_MODULE => Some(What::NotAModule),
        What::NOT_A_VALUE => Some(What::NotAValue),
        What::ALREADY_BOUND => Some(What::AlreadyBound(first, second)),
        What::NO_MEMBERS => Some(What::NoMembers(ty)),
        What::OPERAND_TYPE => operand_in(row),
        What::NOT_CALLABLE => Some(What::NotCallable(ty)),
        What::TOO_MANY_ARGS => Some(What::TooManyArgs(ty.entry, first, second)),
        What::TOO_FEW_ARGS => Some(What::TooFewArgs(ty.entry, first, second)),
        What::ARG_TYPE => Some(What::ArgType(first, second, row.third, ty)),
        What::VOID_VALUE => Some(What::VoidValue),
        What::INTEGRAL_TOO_LARGE => Some(What::IntegralTooLarge),
        What::MULTIPLE_IMPORTS => Some(What::MultipleImports),
        What::DISCARDED_VALUE => Some(What::DiscardedValue(ty)),
        What::TRUNCATED => truncated_in(row),
        What::OVERFLOW => Some(What::Overflow(ty, first)),
        _ => None,
    }
}

#[tactic(auto, unfolding(crate::specs::Reading::truncated_in))]
fn truncated_in(row: DiagnosticRow) -> Option<What>
    ensures { result ≡ truncated_in row }
{
    let n = Wide {
        hi: row.second,
        lo: row.first,
    };
    Some(What::Truncated(n, type_in(row)))
}

// A finding that rows can show and that has this row.
#[tactic(auto, unfolding(crate::specs::Reading::confirmed))]
fn confirmed(row: DiagnosticRow, d: Diagnostic) -> Option<Diagnostic>
    ensures { result ≡ confirmed row d }
{
    (is_sound(d) & same_row(crate::row_of(d), row)).then_some(d)
}

// What a row was, or that no finding has such a row.
#[tactic(auto, unfolding(crate::specs::Reading::read_of))]
pub fn read(row: DiagnosticRow) -> Option<Diagnostic>
    ensures { result ≡ read_of row }
{
    let what = guessed(row)?;
    confirmed(
        row,
        crate::placed(row.line, row.column, row.start, row.end, what),
    )
}
