#![tactic(auto)]
// The arguments of a call: all are judged before the first is fitted, and no more is kept of them than a function has parameters.
// Ports bind.rs.
ghost use Rattle.std.specs.Prelude.{◌≡◌, List, [], ◌∷◌, ◌++◌, ℕ, ◌+◌, ◌≤◌, ◌<◌, length, get_or};
ghost use Rattle.language.specs.Tables.{token_width};
ghost use Rattle.rows.specs.Tokens.{TokenTable};
ghost use Rattle.language.specs.Values.{ty_kind, entry_at};
ghost use Rattle.language.specs.Judgements.{too_few_args, err, Arg};
ghost use Rattle.constants.specs.Constants.{no_param, most_params};
ghost use Rattle.values.specs.Values.{judged_as, with_counts};
ghost use Rattle.holding.specs.Holding.{most_rows, step};
ghost use Rattle.arguments.specs.Arguments.{given_as, end, Keeps, Near, WrongType, Takes, finished, Binds};

use findings::{Counts, What};
use rows::StatementRow;
use values::{Judged, Term};

// An argument that was judged: what it comes to, the row that is kept for it, and its first token.
#[derive(Clone, Copy)]
pub struct Given {
    pub term: Term,
    pub row: usize,
    pub first: u64,
}

// The first two arguments, the first token of the third, and how many there are. No function has more than two parameters.
#[derive(Clone, Copy)]
pub struct Kept {
    pub first: Given,
    pub second: Given,
    pub third: u64,
    pub count: u64,
}

// No argument yet; what stands for them is never read.
#[tactic(auto, using(crate::proofs::Arguments::keeps_none))]
pub fn none_kept(v: Term) -> Kept
    ensures { ((k : ℕ) → Keeps k [] result) × Near result }
{
    let none = Given {
        term: v,
        row: 0,
        first: 0,
    };
    Kept {
        first: none,
        second: none,
        third: 0,
        count: 0,
    }
}

// One argument more.
pub fn keep(k: Kept, g: Given) -> Kept
    requires { (k.count < most_rows) × Near k × (g.row < most_rows) }
    ensures { ((start : ℕ) (gs : List Arg) (a : Arg) → Keeps start gs k → g ≡ given_as a (end start gs) → Keeps start (gs ++ a ∷ []) result) × Near result }
{
    let count = k.count + 1;
    match k.count {
        0 => Kept {
            first: g,
            count,
            ..k
        },
        1 => Kept {
            second: g,
            count,
            ..k
        },
        2 => Kept {
            third: g.first,
            count,
            ..k
        },
        _ => Kept { count, ..k },
    }
}

// ---- what a function takes and gives

// How many parameters the function f has.
fn parameters(f: u64) -> u64
    ensures { (result ≡ length (entry_at f).params) × (result ≤ most_params) }
{
    let signature = constants::signature_of(f);
    signature.params
}

// The number of the type of its parameter i.
fn parameter_type(f: u64, i: u64) -> u64
    requires { i < most_params }
    ensures { result ≡ ty_kind (get_or (entry_at f).params i no_param).type }
{
    let signature = constants::signature_of(f);
    let first = signature.first;
    let second = signature.second;
    if i == 0 {
        return first.ty;
    }
    second.ty
}

// The number of the type that it gives.
fn given_type(f: u64) -> u64
    ensures { result ≡ ty_kind (entry_at f).gives }
{
    let signature = constants::signature_of(f);
    signature.gives
}

// ---- one argument

// What an argument comes to where its type is not the one that is wanted.
#[tactic(auto, using(crate::proofs::Bound::wrong_type))]
fn wrong_type(toks: &[u64], f: u64, i: u64, wanted: u64, g: Given) -> Judged
    requires { token_width ≤ length toks.now }
    ensures { (s : List ℕ) → TokenTable s toks.now → WrongType s f i wanted g result }
{
    let found = values::type_of(g.term);
    values::error(
        rows::token_at(toks, g.first),
        What::ArgType(f, i, wanted, found),
    )
}

// Fits an argument to parameter i of the function f, and writes its row once it fits. One finding at the most is reported.
fn fit_one(
    toks: &[u64],
    diags: &mut [u64],
    counts: &mut Counts,
    stmts: &mut [u64],
    f: u64,
    i: u64,
    g: Given,
) -> Judged
    requires { (token_width ≤ length toks.now) × (counts.old.errors + counts.old.warnings < most_rows) × (g.row < most_rows) × (i < most_params) }
    ensures by_index { (s : List ℕ) → TokenTable s toks.now → Takes s f i (entry_at f).params g counts.old diags.old stmts.old
        (with_counts result counts.new) diags.new stmts.new }
    ensures warnings_bound { counts.new.errors + counts.new.warnings ≤ counts.old.errors + counts.old.warnings + 1 }
{
    let wanted = parameter_type(f, i);
    let otherwise = wrong_type(toks, f, i, wanted, g);
    let fitted = fitting::fit(toks, diags, counts, wanted, g.first, g.term, otherwise)?;
    holding::put_part(toks, stmts, g.row, StatementRow::ARGUMENT, i, fitted);
    Ok(fitted)
}

// ---- all of them

// All parameters have their arguments: the call, or an error at the token `over`, where the next argument starts.
#[tactic(auto, using(crate::proofs::Bound::too_many_lem, crate::proofs::Bound::enough))]
fn finish(toks: &[u64], at: u64, f: u64, many: u64, wanted: u64, over: u64) -> Judged
    requires { token_width ≤ length toks.now }
    ensures { (s : List ℕ) → TokenTable s toks.now → result ≡ finished s at f many wanted over }
{
    if many > wanted {
        return values::error(
            rows::token_at(toks, over),
            What::TooManyArgs(f, many, wanted),
        );
    }
    Ok(Term {
        at,
        form: Term::CALL,
        kind: given_type(f),
        lo: f,
        hi: wanted,
    })
}

// A parameter has none.
#[tactic(auto, using(crate::proofs::Bound::too_few))]
fn too_few(toks: &[u64], at: u64, f: u64, many: u64, wanted: u64) -> Judged
    requires { token_width ≤ length toks.now }
    ensures { (s : List ℕ) → TokenTable s toks.now → result ≡ judged_as s (err at (too_few_args f many wanted)) }
{
    values::error(rows::token_at(toks, at), What::TooFewArgs(f, many, wanted))
}

// Fits the arguments to the parameters of the function f, one after the other, for the call at the token `at`: each has its row
// written once it fits.
pub fn bind(
    toks: &[u64],
    diags: &mut [u64],
    counts: &mut Counts,
    stmts: &mut [u64],
    at: u64,
    f: u64,
    k: Kept,
) -> Judged
    requires { (token_width ≤ length toks.now) × (counts.old.errors + counts.old.warnings + 2 ≤ most_rows) × Near k }
    ensures { (s : List ℕ) → TokenTable s toks.now → (row : ℕ) → Binds s at f k row counts.old diags.old stmts.old
        (step result counts.new row) diags.new stmts.new }
{
    let wanted = parameters(f);
    let many = k.count;
    let first = k.first;
    if wanted == 0 {
        return finish(toks, at, f, many, wanted, first.first);
    }
    if many == 0 {
        return too_few(toks, at, f, many, wanted);
    }
    fit_one(toks, diags, counts, stmts, f, 0, first)?;
    let second = k.second;
    if wanted == 1 {
        return finish(toks, at, f, many, wanted, second.first);
    }
    if many == 1 {
        return too_few(toks, at, f, many, wanted);
    }
    fit_one(toks, diags, counts, stmts, f, 1, second)?;
    finish(toks, at, f, many, wanted, k.third)
}
