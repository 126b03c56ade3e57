#![tactic(auto)]
// Terms: what an expression comes to, as its place, its form and a value in three words. Ports check.rs `Value` and what it does
// with constants: literals, the type that is shown, and the smallest type.
ghost use Rattle.std.specs.Prelude.{◌≡◌, List, ℕ, ◌+◌, ◌≤◌, length, Err};
ghost use Rattle.language.specs.Tables.{token_width};
ghost use Rattle.language.specs.Tokens.{tokens, contents};
ghost use Rattle.language.specs.Numbers.{token_of};
ghost use Rattle.language.specs.Judgements.{literal_at};
ghost use Rattle.rows.specs.Tokens.{TokenTable};
ghost use Rattle.findings.specs.Findings.{at_token};
ghost use Rattle.values.specs.declared.Halt.TheVariants.{Found};
ghost use Rattle.values.specs.Values.{constant_as, sock4_as, held_as, constant_type, is_integral, is_number, TypeShown, Used, Narrow, shown_constant, Shown};

use findings::{Diagnostic, What};
use rows::{Text, TokKind, Token, Ty, Type};
use wide::{Size, Wide};

// What an expression comes to. `at` is the token where an error about it points. Of a constant, `kind` is a number of `Ty` and the
// two words are its value; else `kind` is that of its type, and of a slot `lo` is its number and `hi` the entry that its type
// shows, of a call `lo` is the function's entry and `hi` how many arguments it has.
#[derive(Clone, Copy)]
pub struct Term {
    pub at: u64,
    pub form: u64,
    pub kind: u64,
    pub lo: u64,
    pub hi: u64,
}

impl Term {
    // The form of a name whose statement failed.
    pub const NONE: u64 = 0;

    pub const CONSTANT: u64 = 1;

    pub const SLOT: u64 = 2;

    pub const CALL: u64 = 3;

    pub const SLASH: u64 = 4;
}

// Why an expression comes to no value. A name whose `let` or `import` failed poisons what it stands in; a call with a named argument
// stops everything, at the token of its `(`.
#[derive(Clone, Copy)]
pub enum Halt {
    Found(Diagnostic),
    Poisoned,
    Stopped(u64),
}

// What judging an expression comes to.
pub type Judged = Result<Term, Halt>;

// An error at a token.
pub fn error(tok: Token, what: What) -> Judged
    ensures { result ≡ Err (Found (at_token tok what)) }
{
    Err(Halt::Found(Diagnostic::at(tok, what)))
}

// What a name at the token t stands for, by the form and the three words of its entry.
#[tactic(auto, unfolding(crate::specs::Values::held_as))]
pub fn held(t: u64, form: u64, kind: u64, lo: u64, hi: u64) -> Judged
    ensures { result ≡ held_as t form kind lo hi }
{
    if form == Term::NONE {
        return Err(Halt::Poisoned);
    }
    Ok(Term {
        at: t,
        form,
        kind,
        lo,
        hi,
    })
}

// ---- literals

#[tactic(auto, using(crate::proofs::Values::literal_bool, crate::proofs::Values::literal_ip4, crate::proofs::Values::literal_string, crate::proofs::Values::literal_other))]
pub fn literal(toks: &[u64], t: u64) -> Term
    requires { token_width ≤ length toks.now }
    ensures { (s : List ℕ) → TokenTable s toks.now → result ≡ constant_as t (literal_at (contents (tokens s)) t) }
{
    let tok = rows::token_at(toks, t);
    let kind = tok.kind;
    match kind {
        TokKind::BOOLEAN_LITERAL => constant(t, Ty::BOOL, tok.lo, 0),
        TokKind::IPV4_LITERAL => constant(t, Ty::IP4, tok.lo, 0),
        TokKind::STRING_LITERAL => constant(t, Ty::BYTES, t, 0),
        _ => constant(t, Ty::INTEGER, tok.lo, tok.hi),
    }
}

// A value that is known, at a token.
pub fn constant(at: u64, kind: u64, lo: u64, hi: u64) -> Term
    ensures { result ≡ record { at = at; form = 1; kind = kind; lo = lo; hi = hi } }
{
    Term {
        at,
        form: Term::CONSTANT,
        kind,
        lo,
        hi,
    }
}

// An address, and its port two tokens on.
pub fn sock4(toks: &[u64], t: u64) -> Term
    requires { token_width ≤ length toks.now }
    ensures { (s : List ℕ) → TokenTable s toks.now → result ≡ sock4_as t (token_of s t) (token_of s (t + 2)) }
{
    let ip = rows::token_at(toks, t);
    let port = rows::two_after(toks, t);
    constant(t, Ty::SOCK4, ip.lo, port.lo)
}

// ---- types

// The type of a constant: bytes are one type, wherever they are, and a function's has its entry.
#[tactic(auto, unfolding(crate::specs::Values::constant_type))]
fn constant_type(v: Term) -> Type
    ensures { result ≡ constant_type v.kind v.lo }
{
    let kind = v.kind;
    match kind {
        Ty::TABLE_BYTES => Type {
            kind: Ty::BYTES,
            entry: 0,
        },
        Ty::FUNCTION => Type {
            kind: Ty::FUNCTION,
            entry: v.lo,
        },
        _ => Type { kind, entry: 0 },
    }
}

// The type of what an expression comes to.
#[tactic(auto, using(crate::proofs::Values::type_constant, crate::proofs::Values::type_slot, crate::proofs::Values::type_other))]
pub fn type_of(v: Term) -> Type
    ensures { TypeShown v result }
{
    let form = v.form;
    match form {
        Term::CONSTANT => constant_type(v),
        Term::SLOT => Type {
            kind: v.kind,
            entry: v.hi,
        },
        _ => Type {
            kind: v.kind,
            entry: 0,
        },
    }
}

// Types that have bits: bools, and integers with a size.
#[tactic(auto, unfolding(crate::specs::Values::is_integral))]
pub fn is_integral(kind: u64) -> bool
    ensures { result ≡ is_integral kind }
{
    (Ty::BOOL <= kind) & (kind <= Ty::U64)
}

// Kinds of constants that are numbers: the same, and integers with no size.
#[tactic(auto, unfolding(crate::specs::Values::is_number))]
pub fn is_number(kind: u64) -> bool
    ensures { result ≡ is_number kind }
{
    is_integral(kind) | (kind == Ty::INTEGER)
}

// A value that is used must not be void.
#[tactic(auto, using(crate::proofs::Values::used_void, crate::proofs::Values::used_value))]
pub fn used(toks: &[u64], v: Term) -> Judged
    requires { token_width ≤ length toks.now }
    ensures { (s : List ℕ) → TokenTable s toks.now → Used s v result }
{
    if v.kind == Ty::VOID {
        return error(rows::token_at(toks, v.at), What::VoidValue);
    }
    Ok(v)
}

// An integer with no size takes the smallest type that holds it, if any does. Any other value stays as it is.
#[tactic(auto, using(crate::proofs::Narrowing::narrow_run, crate::proofs::Narrowing::narrow_same, crate::proofs::Narrowing::narrow_u8, crate::proofs::Narrowing::narrow_u16, crate::proofs::Narrowing::narrow_u32, crate::proofs::Narrowing::narrow_u64, crate::proofs::Narrowing::narrow_large))]
pub fn narrow(v: Term) -> Option<Term>
    ensures { Narrow v result }
{
    if v.form != Term::CONSTANT {
        return Some(v);
    }
    if v.kind != Ty::INTEGER {
        return Some(v);
    }
    let n = Wide { hi: v.hi, lo: v.lo };
    match n.smallest() {
        Some(Size::U8) => Some(constant(v.at, Ty::U8, v.lo, 0)),
        Some(Size::U16) => Some(constant(v.at, Ty::U16, v.lo, 0)),
        Some(Size::U32) => Some(constant(v.at, Ty::U32, v.lo, 0)),
        Some(Size::U64) => Some(constant(v.at, Ty::U64, v.lo, 0)),
        None => None,
    }
}

// What a statement's row shows of a constant: which text, and two words.
#[tactic(auto, unfolding(crate::specs::Values::shown_constant, crate::specs::Values::constant_type))]
fn shown_constant(v: Term) -> Text
    ensures { result ≡ shown_constant v.kind v.lo v.hi }
{
    let kind = v.kind;
    match kind {
        Ty::FUNCTION => findings::type_text(constant_type(v)),
        Ty::TABLE_BYTES => Text {
            from: Text::TABLE,
            start: v.lo,
            end: v.hi,
        },
        Ty::BYTES => Text {
            from: Text::SOURCE,
            start: v.lo,
            end: v.hi,
        },
        _ => Text {
            from: Text::NONE,
            start: v.lo,
            end: v.hi,
        },
    }
}

// What a statement's row shows of any term.
#[tactic(auto, using(crate::proofs::Narrowing::shown_constant_lem, crate::proofs::Narrowing::shown_slot, crate::proofs::Narrowing::shown_other))]
pub fn shown(v: Term) -> Text
    ensures { Shown v result }
{
    let form = v.form;
    match form {
        Term::CONSTANT => shown_constant(v),
        Term::SLOT => Text {
            from: Text::NONE,
            start: v.lo,
            end: 0,
        },
        _ => Text {
            from: Text::NONE,
            start: v.lo,
            end: v.hi,
        },
    }
}
