#![tactic(auto)]
// Fitting a value to a type that is wanted. Ports check.rs `narrow_to` and `fit`.
ghost use Rattle.std.specs.Prelude.{◌≡◌, List, ℕ, ◌+◌, ◌≤◌, ◌<◌, Ok, length};
ghost use Rattle.language.specs.Tables.{token_width};
ghost use Rattle.rows.specs.Tokens.{TokenTable};
ghost use Rattle.values.specs.Values.{with_counts};
ghost use Rattle.holding.specs.Holding.{most_rows};
ghost use Rattle.fitting.specs.Fitting.{bits_by, low_by, fits_by, is_unsized, Warns, Cuts, Widens, Narrows, Unsized, Kept, Plain, Fits};

use findings::{Counts, Diagnostic, What};
use rows::{Ty, Type};
use values::{Judged, Term};
use wide::Wide;

// ---- the numbers of types

// How many bits a type has, 0 where it is neither an integer's nor a bool's.
#[tactic(auto, unfolding(crate::specs::Fitting::bits_by))]
fn bits(kind: u64) -> u64
    ensures { result ≡ bits_by kind }
{
    match kind {
        Ty::BOOL => 1,
        Ty::U8 => 8,
        Ty::U16 => 16,
        Ty::U32 => 32,
        Ty::U64 => 64,
        _ => 0,
    }
}

// What an integer type holds of a word.
#[tactic(auto, unfolding(crate::specs::Fitting::low_by))]
fn low_bits(wanted: u64, lo: u64) -> u64
    ensures { result ≡ low_by wanted lo }
{
    match wanted {
        Ty::U8 => lo % 256,
        Ty::U16 => lo % 65536,
        Ty::U32 => lo % 4294967296,
        _ => lo,
    }
}

// Whether a value of the second type can be passed, as it is, for a parameter of the first.
#[tactic(auto, unfolding(crate::specs::Fitting::fits_by))]
fn fits(wanted: u64, kind: u64) -> bool
    ensures { result ≡ fits_by wanted kind }
{
    let integral = values::is_integral(kind);
    if values::is_integral(wanted) {
        return integral;
    }
    match wanted {
        Ty::BYTES => integral | ((Ty::BYTES == kind) | ((Ty::PKT == kind) | (Ty::IP4 == kind))),
        Ty::PKT_GEN => (Ty::PKT_GEN == kind) | (Ty::PKT == kind),
        Ty::IP4 => Ty::IP4 == kind,
        Ty::SOCK4 => Ty::SOCK4 == kind,
        Ty::PKT => Ty::PKT == kind,
        Ty::TIME_JUMP => Ty::TIME_JUMP == kind,
        _ => false,
    }
}

// ---- integer types

// Reports a finding at the token t.
fn warn(toks: &[u64], diags: &mut [u64], counts: &mut Counts, t: u64, what: What)
    requires { (token_width ≤ length toks.now) × (counts.old.errors + counts.old.warnings < most_rows) }
    ensures by_index { (s : List ℕ) → TokenTable s toks.now → Warns s t what counts.old diags.old counts.new diags.new }
    ensures warnings_bound { counts.new.errors + counts.new.warnings ≤ counts.old.errors + counts.old.warnings + 1 }
{
    findings::report(diags, counts, Diagnostic::at(rows::token_at(toks, t), what));
}

// A constant that is a number, cut to an integer type.
#[tactic(auto, using(crate::proofs::Fitting::cut_same, crate::proofs::Fitting::cut_more))]
fn cut(toks: &[u64], diags: &mut [u64], counts: &mut Counts, wanted: u64, t: u64, v: Term) -> Term
    requires { (token_width ≤ length toks.now) × (counts.old.errors + counts.old.warnings < most_rows) }
    ensures by_index { (s : List ℕ) → TokenTable s toks.now → Cuts s wanted t v counts.old diags.old (with_counts (Ok result) counts.new) diags.new }
    ensures warnings_bound { counts.new.errors + counts.new.warnings ≤ counts.old.errors + counts.old.warnings + 1 }
{
    let low = low_bits(wanted, v.lo);
    let cut = values::constant(v.at, wanted, low, 0);
    if (v.hi == 0) & (low == v.lo) {
        return cut;
    }
    let n = Wide { hi: v.hi, lo: v.lo };
    let ty = Type {
        kind: wanted,
        entry: 0,
    };
    warn(toks, diags, counts, t, What::Truncated(n, ty));
    cut
}

// A value that is not known before the run stays as it is.
fn widened(
    toks: &[u64],
    diags: &mut [u64],
    counts: &mut Counts,
    wanted: u64,
    t: u64,
    v: Term,
) -> Term
    requires { (token_width ≤ length toks.now) × (counts.old.errors + counts.old.warnings < most_rows) }
    ensures by_index { (s : List ℕ) → TokenTable s toks.now → Widens s wanted t v counts.old diags.old (with_counts (Ok result) counts.new) diags.new }
    ensures warnings_bound { counts.new.errors + counts.new.warnings ≤ counts.old.errors + counts.old.warnings + 1 }
{
    let ty = values::type_of(v);
    if bits(wanted) < bits(ty.kind) {
        warn(toks, diags, counts, t, What::Overflow(ty, wanted));
    }
    v
}

// To an integer type: a constant is cut to it, with a warning where that changes it; a value that is not known stays as it is, with
// a warning where its type is wider. What is no number comes to `otherwise`.
#[tactic(auto, using(crate::proofs::Fitting::narrow_cut, crate::proofs::Fitting::narrow_other, crate::proofs::Fitting::narrow_wide, crate::proofs::Fitting::narrow_none))]
pub fn narrow_to(
    toks: &[u64],
    diags: &mut [u64],
    counts: &mut Counts,
    wanted: u64,
    t: u64,
    v: Term,
    otherwise: Judged,
) -> Judged
    requires { (token_width ≤ length toks.now) × (counts.old.errors + counts.old.warnings < most_rows) }
    ensures by_index { (s : List ℕ) → TokenTable s toks.now → Narrows s wanted t v otherwise counts.old diags.old (with_counts result counts.new) diags.new }
    ensures warnings_bound { counts.new.errors + counts.new.warnings ≤ counts.old.errors + counts.old.warnings + 1 }
{
    if v.form == Term::CONSTANT {
        if values::is_number(v.kind) {
            return Ok(cut(toks, diags, counts, wanted, t, v));
        }
        return otherwise;
    }
    if values::is_integral(v.kind) {
        return Ok(widened(toks, diags, counts, wanted, t, v));
    }
    otherwise
}

// ---- other types

// An integer with no size that stands for a bool: `true` unless it is 0.
#[tactic(auto, using(crate::proofs::Fitting::bool_false, crate::proofs::Fitting::bool_true))]
fn as_bool(v: Term) -> Judged
    ensures { (s : List ℕ) (t : ℕ) → Unsized s 2 t v result }
{
    if (v.hi == 0) & (v.lo == 0) {
        return Ok(values::constant(v.at, Ty::BOOL, 0, 0));
    }
    Ok(values::constant(v.at, Ty::BOOL, 1, 0))
}

// One that stands for bytes, at the token t: it takes its smallest type.
fn as_bytes(toks: &[u64], t: u64, v: Term) -> Judged
    requires { token_width ≤ length toks.now }
    ensures { (s : List ℕ) → TokenTable s toks.now → Unsized s 9 t v result }
{
    match values::narrow(v) {
        Some(w) => Ok(w),
        None => values::error(rows::token_at(toks, t), What::IntegralTooLarge),
    }
}

// A value as it is, if it fits.
#[tactic(auto, using(crate::proofs::Fitting::kept_fits, crate::proofs::Fitting::kept_not))]
fn as_it_is(wanted: u64, v: Term, otherwise: Judged) -> Judged
    ensures { (s : List ℕ) → Kept s wanted v otherwise result }
{
    let ty = values::type_of(v);
    if fits(wanted, ty.kind) {
        return Ok(v);
    }
    otherwise
}

// Whether a value is an integer with no size.
fn is_unsized(v: Term) -> bool
    ensures { result ≡ is_unsized v }
{
    (v.form == Term::CONSTANT) & (v.kind == Ty::INTEGER)
}

// To a type that is no integer's. That warns of nothing.
#[tactic(auto, using(crate::proofs::Fitting::plain_bool, crate::proofs::Fitting::plain_bytes, crate::proofs::Fitting::plain_other, crate::proofs::Fitting::plain_sized))]
fn plain(toks: &[u64], wanted: u64, t: u64, v: Term, otherwise: Judged) -> Judged
    requires { token_width ≤ length toks.now }
    ensures { (s : List ℕ) → TokenTable s toks.now → Plain s wanted t v otherwise result }
{
    if is_unsized(v) {
        if wanted == Ty::BOOL {
            return as_bool(v);
        }
        if wanted == Ty::BYTES {
            return as_bytes(toks, t, v);
        }
        return as_it_is(wanted, v, otherwise);
    }
    as_it_is(wanted, v, otherwise)
}

// To the type of a parameter.
#[tactic(auto, using(crate::proofs::Fitting::fit_int, crate::proofs::Fitting::fit_other))]
pub fn fit(
    toks: &[u64],
    diags: &mut [u64],
    counts: &mut Counts,
    wanted: u64,
    t: u64,
    v: Term,
    otherwise: Judged,
) -> Judged
    requires { (token_width ≤ length toks.now) × (counts.old.errors + counts.old.warnings < most_rows) }
    ensures by_index { (s : List ℕ) → TokenTable s toks.now → Fits s wanted t v otherwise counts.old diags.old (with_counts result counts.new) diags.new }
    ensures warnings_bound { counts.new.errors + counts.new.warnings ≤ counts.old.errors + counts.old.warnings + 1 }
{
    if (Ty::U8 <= wanted) & (wanted <= Ty::U64) {
        return narrow_to(toks, diags, counts, wanted, t, v, otherwise);
    }
    plain(toks, wanted, t, v, otherwise)
}
