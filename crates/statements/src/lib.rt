#![tactic(auto)]
// Statements: what they come to, one after the other. Ports check.rs's `Checker`, its statements and its statement loop; the
// definitions are `Judgements` and `Findings` of the crate `language`. A statement reads the checker's state and says what it
// binds or imports; the loop alone stores it.
ghost use Rattle.std.specs.Prelude.{◌≡◌, List, ℕ, ◌+◌, ◌*◌, ◌/◌, ◌<◌, ◌≤◌, length, Ok};
ghost use Rattle.language.specs.Tokens.{tokens, contents};
ghost use Rattle.language.specs.Values.{lookup};
ghost use Rattle.language.specs.Sentences.{Expr, Stmt, import', let', expr', node_width};
ghost use Rattle.language.specs.Judgements.{Known, most_names, most_imports, judge_all};
ghost use Rattle.constants.specs.Constants.{or_zero};
ghost use Rattle.rows.specs.Rows.{node_word};
ghost use Rattle.holding.specs.Holding.{stepped};
ghost use Rattle.names.specs.Names.{name_width, Keyed};
ghost use Rattle.judging.specs.Judging.{most_findings, Ready, Knows, RepAt};
ghost use Rattle.statements.specs.Turned as turn;
ghost use Rattle.statements.specs.Turned.{told};
ghost use Rattle.statements.specs.Checking.{no_counts, plus_number, held_to, plus_slot, plus_name, plus_import, Room, Enters, no_value, deed_number, Does, Tells, Turns, StmtFits, Values, BindsValue, Binds, BoundTwice, RowFits, StmtsAt, RowTurns, AllSound, refusal_number, refusal_token, Comes};

use constants::Constants;
use findings::{Counts, Diagnostic, What};
use holding::Valued;
use judging::Scope;
use names::Entry;
use rows::{NodeKind, NodeRow, StatementRow, TokKind, Token, Tokens, Ty, Verdict};
use values::{Halt, Term};

// The checker's state: the names that are bound and imported, in order of binding. `Counts` says how many of each are filled.
#[derive(Drop)]
pub struct Checker {
    pub bindings: [u64; Checker::NAMES * Entry::WORDS],
    pub imports: [u64; Checker::IMPORTS * Entry::WORDS],
}

impl Checker {
    pub const NAMES: usize = 512;

    pub const IMPORTS: usize = 64;

    // Empty entries.
    pub fn new() -> Self
        ensures { (length result.bindings ≡ most_names * name_width) × (length result.imports ≡ most_imports * name_width) }
    {
        Checker {
            bindings: [0; Checker::NAMES * Entry::WORDS],
            imports: [0; Checker::IMPORTS * Entry::WORDS],
        }
    }

    // Nothing is bound, imported, found or held, and no statement was begun.
    pub fn start() -> Counts
        ensures { result ≡ no_counts }
    {
        Counts {
            used: 0,
            imported: 0,
            slots: 0,
            errors: 0,
            warnings: 0,
            statements: 0,
            number: 0,
            comparisons: 0,
        }
    }
}

// What a statement leads to.
#[derive(Clone, Copy)]
pub enum Turn {
    // it binds and imports nothing
    Went,
    Binds(Entry),
    Imports(Entry),
}

// Why nothing is judged any more, with the token where it stands.
#[derive(Clone, Copy, PartialEq, Eq)]
pub enum Refusal {
    // a call with a named argument
    Calls(u64),
    // one name more than there is room for
    Names(u64),
}

impl Refusal {
    // The number that C sees.
    pub fn number(self) -> u64
        ensures { result ≡ refusal_number self }
    {
        match self {
            Refusal::Calls(_) => Verdict::CALLS,
            Refusal::Names(_) => Verdict::NAMES,
        }
    }

    // The token where it stands.
    pub fn token(self) -> u64
        ensures { result ≡ refusal_token self }
    {
        match self {
            Refusal::Calls(t) => t,
            Refusal::Names(t) => t,
        }
    }
}

// ---- the state

// The name at the token t, with its key and what it stands for.
fn entry(tok: Token, t: u64, key: u64, v: Term) -> Entry
    ensures { Enters tok t key v result }
{
    if tok.kind == TokKind::IDENTIFIER {
        return Entry {
            key,
            start: tok.start,
            end: tok.end,
            token: t,
            form: v.form,
            kind: v.kind,
            lo: v.lo,
            hi: v.hi,
        };
    }
    Entry {
        key,
        start: 0,
        end: 0,
        token: t,
        form: v.form,
        kind: v.kind,
        lo: v.lo,
        hi: v.hi,
    }
}

// What a name stands for that has no value: of one that failed the kind is 0, of an import it is the number of its module.
fn no_value(kind: u64) -> Term
    ensures { result ≡ no_value kind }
{
    Term {
        at: 0,
        form: Term::NONE,
        kind,
        lo: 0,
        hi: 0,
    }
}

// ---- counts

// The next statement: imports, lets and expressions alike are numbered from 1.
fn begun(counts: Counts) -> Counts
    requires { counts.number ≤ most_findings }
    ensures { result ≡ plus_number counts }
{
    Counts {
        number: counts.number + 1,
        ..counts
    }
}

// A statement holds the rows up to `next`.
fn held_to(counts: Counts, next: usize) -> Counts
    ensures { result ≡ held_to counts next }
{
    Counts {
        statements: next,
        ..counts
    }
}

// The same, and it makes a slot.
fn slot_made(counts: Counts, next: usize) -> Counts
    requires { counts.slots < most_findings }
    ensures { result ≡ plus_slot counts next }
{
    Counts {
        slots: counts.slots + 1,
        statements: next,
        ..counts
    }
}

// ---- expressions as statements

// What a statement does with a value of a type.
fn deed_of(kind: u64) -> u64
    ensures { result ≡ deed_number kind }
{
    match kind {
        Ty::PKT => StatementRow::EMIT,
        Ty::PKT_GEN => StatementRow::EMIT,
        Ty::TIME_JUMP => StatementRow::WAIT,
        Ty::VOID => StatementRow::EVAL,
        _ => StatementRow::DISCARD,
    }
}

// An expression statement at the token t. The rows of its value's parts end before the next free row; its own is written here, where
// it is known that the value stays.
fn does(
    toks: &Tokens,
    diags: &mut [u64],
    counts: &mut Counts,
    stmts: &mut [u64],
    t: u64,
    v: Term,
    next: usize,
)
    requires { Room counts.old }
    ensures { Does toks.now t v next counts.old diags.old stmts.old counts.new diags.new stmts.new }
{
    let ty = values::type_of(v);
    let kind = deed_of(ty.kind);
    holding::put(toks.rows(), stmts, counts.statements, t, kind, 0, v);
    let held = held_to(*counts, next);
    *counts = held;
    if kind == StatementRow::DISCARD {
        findings::report(
            diags,
            counts,
            Diagnostic::at(toks.at(t), What::DiscardedValue(ty)),
        );
    }
}

// The value of an expression statement at the token t: an integer with no size takes the smallest that holds it.
fn tell(
    toks: &Tokens,
    diags: &mut [u64],
    counts: &mut Counts,
    stmts: &mut [u64],
    t: u64,
    v: Term,
    next: usize,
)
    requires { Room counts.old }
    ensures { Tells toks.now t v next counts.old diags.old stmts.old counts.new diags.new stmts.new }
{
    match values::narrow(v) {
        Some(w) => does(toks, diags, counts, stmts, t, w, next),
        None => findings::report(
            diags,
            counts,
            Diagnostic::at(toks.at(t), What::IntegralTooLarge),
        ),
    }
}

// An expression as a statement: row i.
fn expr_stmt(
    scope: &Scope,
    diags: &mut [u64],
    counts: &mut Counts,
    stmts: &mut [u64],
    i: usize,
) -> Result<Turn, Refusal>
    requires ready { Ready scope.now.toks.now scope.now.bindings.now scope.now.imports.now counts.old }
    requires stmt_fits { StmtFits scope.now.nodes.now i counts.old × (node_width * i + node_width ≤ length scope.now.nodes.now) }
    ensures { (n : ℕ) (k : Known) (e : Expr) → n ≡ counts.old.number → Knows scope.now.toks.now scope.now.bindings.now scope.now.imports.now counts.old k
        → RepAt scope.now.nodes.now (node_word scope.now.nodes.now i 2) e
        → Turns scope.now.toks.now n k (expr' e) counts.old diags.old stmts.old (told result counts.new) diags.new stmts.new }
{
    let e = rows::node_word(scope.nodes, i, NodeRow::FIRST) as usize;
    let at = counts.statements;
    match judging::judge(scope, diags, counts, stmts, e, at) {
        Ok(value) => {
            let t = rows::node_word(scope.nodes, e, NodeRow::TOKEN);
            tell(scope.toks, diags, counts, stmts, t, value.term, value.next);
            Ok(Turn::Went)
        }
        Err(Halt::Found(d)) => {
            findings::report(diags, counts, d);
            Ok(Turn::Went)
        }
        Err(Halt::Poisoned) => Ok(Turn::Went),
        Err(Halt::Stopped(p)) => Err(Refusal::Calls(p)),
    }
}

// ---- imports

// The number of the module with a name, 0 where there is none.
fn module_named(name: &[u8]) -> u64
    ensures { result ≡ or_zero (lookup 0 name.now) }
{
    let table = Constants::new();
    let rows = table.rows;
    let text = table.text;
    constants::lookup(&rows, &text, 0, name)
}

// `import` of the name at the token t. Where there is no such module, the name is imported as failed.
fn import(scope: &Scope, diags: &mut [u64], counts: &mut Counts, t: u64) -> Result<Turn, Refusal>
    requires modules { (counts.old.imported ≤ length scope.now.imports.now / name_width) × Keyed scope.now.toks.now scope.now.imports.now counts.old.imported }
    requires room { Room counts.old }
    ensures { (n : ℕ) (k : Known) (b u : List ℕ) → n ≡ counts.old.number → Knows scope.now.toks.now b scope.now.imports.now counts.old k
        → Turns scope.now.toks.now n k (import' t) counts.old diags.old u (told result counts.new) diags.new u }
{
    let tok = scope.toks.at(t);
    let name = scope.toks.name(tok);
    let key = names::key_of(name);
    let imported = counts.imported;
    let place = names::find(scope.toks.bytes(), scope.imports, imported, key, name);
    if place.at < imported {
        findings::report(diags, counts, Diagnostic::at(tok, What::MultipleImports));
        return Ok(Turn::Went);
    }
    if Checker::IMPORTS <= imported {
        return Err(Refusal::Names(t));
    }
    let kind = module_named(name);
    let e = entry(tok, t, key, no_value(kind));
    if kind == 0 {
        findings::report(diags, counts, Diagnostic::at(tok, What::UnknownModule));
        return Ok(Turn::Imports(e));
    }
    Ok(Turn::Imports(e))
}

// ---- lets

// What a `let` is of must not be void.
fn value_of(toks: &Tokens, judged: Result<Valued, Halt>) -> Result<Valued, Halt>
    ensures { (c : Counts) → Values toks.now (stepped judged c) (stepped result c) }
{
    let value = judged?;
    let term = values::used(toks.rows(), value.term)?;
    Ok(Valued { term, ..value })
}

// The name at the token t is bound to a value: a constant or a slot as it is, so that it takes no row; any other takes the next slot.
fn bind_value(
    toks: &Tokens,
    counts: &mut Counts,
    stmts: &mut [u64],
    tok: Token,
    t: u64,
    key: u64,
    value: Valued,
) -> Entry
    requires { Room counts.old }
    ensures { BindsValue toks.now tok t key value.term value.next counts.old stmts.old (Ok (turn.Binds counts.new result)) stmts.new }
{
    let v = value.term;
    if v.form <= Term::SLOT {
        return entry(tok, t, key, v);
    }
    let so_far = *counts;
    let slot = so_far.slots as u64;
    holding::put(
        toks.rows(),
        stmts,
        so_far.statements,
        t,
        StatementRow::LET,
        slot,
        v,
    );
    let ty = values::type_of(v);
    let made = Term {
        at: t,
        form: Term::SLOT,
        kind: ty.kind,
        lo: slot,
        hi: ty.entry,
    };
    *counts = slot_made(so_far, value.next);
    entry(tok, t, key, made)
}

// The name at the token t is bound to what its value came to; where that failed, to nothing.
fn bind(
    toks: &Tokens,
    diags: &mut [u64],
    counts: &mut Counts,
    stmts: &mut [u64],
    tok: Token,
    t: u64,
    key: u64,
    judged: Result<Valued, Halt>,
) -> Result<Turn, Refusal>
    requires { Room counts.old }
    ensures { Binds toks.now tok t key (stepped judged counts.old) diags.old stmts.old (told result counts.new) diags.new stmts.new }
{
    match judged {
        Ok(value) => Ok(Turn::Binds(bind_value(toks, counts, stmts, tok, t, key, value))),
        Err(halt) => match halt {
            Halt::Found(d) => {
                findings::report(diags, counts, d);
                Ok(Turn::Binds(entry(tok, t, key, no_value(0))))
            }
            Halt::Poisoned => Ok(Turn::Binds(entry(tok, t, key, no_value(0)))),
            Halt::Stopped(p) => Err(Refusal::Calls(p)),
        },
    }
}

// A name that is bound already: the finding shows where it was bound first, at the token `first`.
fn bound_twice(toks: &Tokens, diags: &mut [u64], counts: &mut Counts, tok: Token, first: u64)
    requires { counts.old.errors + counts.old.warnings < most_findings }
    ensures { BoundTwice toks.now tok first counts.old diags.old counts.new diags.new }
{
    let then = toks.at(first);
    findings::report(
        diags,
        counts,
        Diagnostic::at(tok, What::AlreadyBound(then.line, then.column)),
    );
}

// `let` in row i. `AlreadyBound` is found before the value is read.
fn let_stmt(
    scope: &Scope,
    diags: &mut [u64],
    counts: &mut Counts,
    stmts: &mut [u64],
    i: usize,
) -> Result<Turn, Refusal>
    requires ready { Ready scope.now.toks.now scope.now.bindings.now scope.now.imports.now counts.old }
    requires stmt_fits { StmtFits scope.now.nodes.now i counts.old × (node_width * i + node_width ≤ length scope.now.nodes.now) }
    ensures { (n : ℕ) (k : Known) (e : Expr) → n ≡ counts.old.number → Knows scope.now.toks.now scope.now.bindings.now scope.now.imports.now counts.old k
        → RepAt scope.now.nodes.now (node_word scope.now.nodes.now i 2) e
        → Turns scope.now.toks.now n k (let' (node_word scope.now.nodes.now i 1) e) counts.old diags.old stmts.old
        (told result counts.new) diags.new stmts.new }
{
    let t = rows::node_word(scope.nodes, i, NodeRow::TOKEN);
    let tok = scope.toks.at(t);
    let name = scope.toks.name(tok);
    let key = names::key_of(name);
    let used = counts.used;
    let place = names::find(scope.toks.bytes(), scope.bindings, used, key, name);
    findings::searched(counts, place.compared);
    let first = place.at;
    if first < used {
        let bound = names::word(scope.bindings, first, Entry::TOKEN);
        bound_twice(scope.toks, diags, counts, tok, bound);
        return Ok(Turn::Went);
    }
    if Checker::NAMES <= used {
        return Err(Refusal::Names(t));
    }
    let e = rows::node_word(scope.nodes, i, NodeRow::FIRST) as usize;
    let at = counts.statements;
    let judged = judging::judge(scope, diags, counts, stmts, e, at);
    let value = value_of(scope.toks, judged);
    bind(scope.toks, diags, counts, stmts, tok, t, key, value)
}

// Row i: a statement takes its turn, a row of an expression is passed.
fn stmt(
    scope: &Scope,
    diags: &mut [u64],
    counts: &mut Counts,
    stmts: &mut [u64],
    i: usize,
) -> Result<Turn, Refusal>
    requires ready { Ready scope.now.toks.now scope.now.bindings.now scope.now.imports.now counts.old }
    requires row_fits { RowFits scope.now.nodes.now i counts.old × (node_width * i + node_width ≤ length scope.now.nodes.now) }
    ensures { (n : ℕ) (k : Known) (ss : List Stmt) → n ≡ counts.old.number + 1 → Knows scope.now.toks.now scope.now.bindings.now scope.now.imports.now counts.old k
        → StmtsAt scope.now.nodes.now i ss
        → RowTurns scope.now.toks.now scope.now.nodes.now i n k counts.old diags.old stmts.old (told result counts.new) diags.new stmts.new ss }
{
    let before = *counts;
    *counts = begun(before);
    match rows::node_word(scope.nodes, i, NodeRow::KIND) {
        NodeKind::IMPORT => import(
            scope,
            diags,
            counts,
            rows::node_word(scope.nodes, i, NodeRow::TOKEN),
        ),
        NodeKind::LET => let_stmt(scope, diags, counts, stmts, i),
        NodeKind::EXPRESSION => expr_stmt(scope, diags, counts, stmts, i),
        _ => {
            *counts = before;
            Ok(Turn::Went)
        }
    }
}

fn named_one(counts: Counts) -> Counts
    requires { counts.used < most_names }
    ensures { result ≡ plus_name counts }
{
    Counts {
        used: counts.used + 1,
        ..counts
    }
}

fn imported_one(counts: Counts) -> Counts
    requires { counts.imported < most_imports }
    ensures { result ≡ plus_import counts }
{
    Counts {
        imported: counts.imported + 1,
        ..counts
    }
}

// All statements, one row after the other. Ports `run`.
pub fn run<'a>(
    toks: &'a Tokens<'a>,
    nodes: &'a [u64],
    diags: &mut [u64],
    stmts: &mut [u64],
) -> Result<Counts, Refusal>
    requires { RowFits nodes.now 0 no_counts }
    ensures { (ss : List Stmt) → StmtsAt nodes.now 0 ss → AllSound (contents (tokens toks.now)) ss
        → Comes toks.now diags.old stmts.old result diags.new stmts.new (judge_all (contents (tokens toks.now)) ss) }
{
    let mut checker = Checker::new();
    let mut counts = Checker::start();
    let rows = nodes.len() / NodeRow::WORDS;
    for i in 0..rows {
        let scope = Scope {
            toks: &*toks,
            nodes: &*nodes,
            bindings: &checker.bindings,
            imports: &checker.imports,
        };
        let turn = stmt(&scope, diags, &mut counts, stmts, i)?;
        match turn {
            Turn::Went => {}
            Turn::Binds(e) => {
                names::put(&mut checker.bindings, counts.used, e);
                counts = named_one(counts);
            }
            Turn::Imports(e) => {
                names::put(&mut checker.imports, counts.imported, e);
                counts = imported_one(counts);
            }
        }
    }
    Ok(counts)
}
