#![tactic(auto)]
// Judging expressions: what the rows of a tree come to. Ports the expression part of check.rs; the definitions are
// `Judgements` and `Findings` of the crate `language`. Warnings are reported as they are found, an error is handed back.
//
// The row `at` of the table of what is held is kept for an expression's own row, which whoever asked writes once it stays; the rows
// of its parts are written from the next one on. What stands before a `.`, a `/` or a `(` is gone down to and up from by loops, so
// that recursion goes only into arguments and right operands.
ghost use Rattle.std.specs.Prelude.{◌≡◌, true, List, ℕ, ◌+◌, ◌*◌, ◌/◌, ◌<◌, ◌≤◌, length};
ghost use Rattle.language.specs.Tokens.{tokens, contents};
ghost use Rattle.language.specs.Sentences.{Expr, Args, none_given, call, slash', node_width};
ghost use Rattle.language.specs.Terms as terms;
ghost use Rattle.language.specs.Judgements.{Known, most_names, any_named, called_name, judge};
ghost use Rattle.rows.specs.Rows.{node_word};
ghost use Rattle.names.specs.Names.{name_width, Keyed};
ghost use Rattle.values.specs.Values.{term_as, with_counts};
ghost use Rattle.holding.specs.Holding.{most_rows, Judges, Agrees, stepped};
ghost use Rattle.judging.specs.Judging.{LocalIs, PathIs, Ready, Knows, Passed, passed, RepAt, ArgsAt, TreeAt, CallFits, ChainFits, Down, Descended, going, rest, MemberIs, OperandIs, Left, Spreads, Joins, Divides, CalleeIs, Calls, LookFits, Fits, StepFits, ArgsFit, ClimbFits};

use arguments::Given;
use findings::{Counts, Diagnostic, Side, What};
use holding::Valued;
use names::Entry;
use rows::{NodeKind, NodeRow, StatementRow, Token, Tokens, Ty};
use values::{Halt, Judged, Term};

// What an expression is judged in: a source with its tokens, the rows of its tree, and the names that are bound and imported.
#[derive(Clone, Copy)]
pub struct Scope<'a> {
    pub toks: &'a Tokens<'a>,
    pub nodes: &'a [u64],
    pub bindings: &'a [u64],
    pub imports: &'a [u64],
}

// How deep a left spine was gone down, and to which row.
#[derive(Clone, Copy)]
pub struct Spine {
    pub depth: usize,
    pub row: usize,
}

impl Spine {
    // How many rows are kept on the way; a longer spine recurses once for each so many.
    pub const ROOM: usize = 64;
}

// What a call's callee comes to: the token of the called name, and the function's entry.
#[derive(Clone, Copy)]
pub struct Callee {
    pub name: u64,
    pub entry: u64,
}

// ---- leaves

// A name that stands for its value, at the token t.
fn local(scope: &Scope, counts: &mut Counts, tok: Token, t: u64) -> Judged
    requires used_in_bounds { (counts.old.used ≤ length scope.now.bindings.now / name_width) × Keyed scope.now.toks.now scope.now.bindings.now counts.old.used }
    requires used_le_most_names { (counts.old.used ≤ most_names) × LookFits counts.old }
    ensures { LocalIs scope.now.toks.now scope.now.bindings.now counts.old tok t (with_counts result counts.new) }
{
    let used = counts.used;
    let name = scope.toks.name(tok);
    let place = names::find(
        scope.toks.bytes(),
        scope.bindings,
        used,
        names::key_of(name),
        name,
    );
    findings::searched(counts, place.compared);
    let i = place.at;
    if used <= i {
        return values::error(tok, What::UnknownName);
    }
    values::held(
        t,
        names::word(scope.bindings, i, Entry::FORM),
        names::word(scope.bindings, i, Entry::KIND),
        names::word(scope.bindings, i, Entry::LOW),
        names::word(scope.bindings, i, Entry::HIGH),
    )
}

// `module::inner*::item`, through the imports.
fn path(scope: &Scope, counts: Counts, t: u64, names: u64) -> Judged
    requires { (counts.imported ≤ length scope.now.imports.now / name_width) × Keyed scope.now.toks.now scope.now.imports.now counts.imported }
    ensures { PathIs scope.now.toks.now scope.now.imports.now counts t names (with_counts result counts) }
{
    let tok = scope.toks.at(t);
    let name = scope.toks.name(tok);
    let place = names::find(
        scope.toks.bytes(),
        scope.imports,
        counts.imported,
        names::key_of(name),
        name,
    );
    let i = place.at;
    if counts.imported <= i {
        return values::error(tok, What::NotImported);
    }
    let top = names::word(scope.imports, i, Entry::KIND);
    if top == 0 {
        return Err(Halt::Poisoned);
    }
    paths::walk(scope.toks, top, t, names)
}

// An expression that holds no other: row i, of a kind below `MEMBER`.
fn leaf(scope: &Scope, counts: &mut Counts, i: usize) -> Judged
    requires ready { Ready scope.now.toks.now scope.now.bindings.now scope.now.imports.now counts.old }
    requires node_width_in_bounds { (node_width * i + node_width ≤ length scope.now.nodes.now) × LookFits counts.old }
    ensures { (n : ℕ) (k : Known) (e : Expr) (x : List ℕ) → Knows scope.now.toks.now scope.now.bindings.now scope.now.imports.now counts.old k
        → RepAt scope.now.nodes.now i e → node_word scope.now.nodes.now i 0 < 6
        → Judges scope.now.toks.now (with_counts result counts.new) x x counts.old
        (judge (contents (tokens scope.now.toks.now)) n k e) }
{
    let t = rows::node_word(scope.nodes, i, NodeRow::TOKEN);
    match rows::node_word(scope.nodes, i, NodeRow::KIND) {
        NodeKind::LITERAL => Ok(values::literal(scope.toks.rows(), t)),
        NodeKind::SOCK4 => Ok(values::sock4(scope.toks.rows(), t)),
        NodeKind::LOCAL => local(scope, counts, scope.toks.at(t), t),
        _ => path(
            scope,
            *counts,
            t,
            rows::node_word(scope.nodes, i, NodeRow::FIRST),
        ),
    }
}

// The same, whose rows would start after the row `at`: it has no parts.
fn lowest(scope: &Scope, counts: &mut Counts, i: usize, at: usize) -> Result<Valued, Halt>
    requires ready { Ready scope.now.toks.now scope.now.bindings.now scope.now.imports.now counts.old }
    requires fits { Fits scope.now.nodes.now i at counts.old × (node_word scope.now.nodes.now i 0 < 6) }
    ensures { (n : ℕ) (k : Known) (e : Expr) (x u : List ℕ) → Knows scope.now.toks.now scope.now.bindings.now scope.now.imports.now counts.old k
        → RepAt scope.now.nodes.now i e
        → Agrees scope.now.toks.now (stepped result counts.new) x x u u counts.old at
        (judge (contents (tokens scope.now.toks.now)) n k e) }
{
    let term = leaf(scope, counts, i)?;
    Ok(Valued { term, next: at + 1 })
}

// ---- `.` and `/`

// In the base no value has members: an error at the name.
fn member(toks: &Tokens, t: u64, v: Term) -> Halt
    ensures { MemberIs toks.now t v (Err result) }
{
    let ty = values::type_of(v);
    Halt::Found(Diagnostic::at(toks.at(t), What::NoMembers(ty)))
}

// A value that is no operand of `/`: its side, and the type that is wanted there.
fn operand(toks: &Tokens, v: Term, side: Side, wanted: u64) -> Halt
    ensures { OperandIs toks.now v side wanted (Err result) }
{
    let ty = values::type_of(v);
    Halt::Found(Diagnostic::at(toks.at(v.at), What::OperandType(side, wanted, ty)))
}

// Both operands stay: their own rows are written now.
fn spread(
    toks: &Tokens,
    stmts: &mut [u64],
    place: u64,
    at: usize,
    left: Valued,
    right: Valued,
) -> Valued
    requires { (at + 1 < most_rows) × (left.next < most_rows) }
    ensures { (c : Counts) → Spreads toks.now place at left.next left.term right.term right.next c stmts.old (stepped (Ok result) c) stmts.new }
{
    let rows = toks.rows();
    holding::put_part(rows, stmts, at + 1, StatementRow::LEFT, 0, left.term);
    holding::put_part(rows, stmts, left.next, StatementRow::RIGHT, 0, right.term);
    Valued {
        term: Term {
            at: place,
            form: Term::SLASH,
            kind: Ty::SOCK4,
            lo: 0,
            hi: 0,
        },
        next: right.next,
    }
}

// Two constants fold, and have written no rows.
fn join(
    toks: &Tokens,
    stmts: &mut [u64],
    place: u64,
    at: usize,
    left: Valued,
    right: Valued,
) -> Valued
    requires { (at + 1 < most_rows) × (left.next < most_rows) }
    ensures { (c : Counts) → Joins toks.now place at left.next left.term right.term right.next c stmts.old (stepped (Ok result) c) stmts.new }
{
    if left.term.form != Term::CONSTANT {
        return spread(toks, stmts, place, at, left, right);
    }
    if right.term.form != Term::CONSTANT {
        return spread(toks, stmts, place, at, left, right);
    }
    Valued {
        term: values::constant(place, Ty::SOCK4, left.term.lo, right.term.lo),
        next: at + 1,
    }
}

// `/` at the token `place`, of an address and of what starts at the token p. Their rows are at + 1 and the first free one of the left.
fn divide(
    toks: &Tokens,
    diags: &mut [u64],
    counts: &mut Counts,
    stmts: &mut [u64],
    place: u64,
    p: u64,
    at: usize,
    left: Valued,
    right: Valued,
) -> Result<Valued, Halt>
    requires { (counts.old.errors + counts.old.warnings < most_rows) × (at + 1 < most_rows) × (left.next < most_rows) }
    ensures { Divides toks.now place p at left.next left.term right.term right.next counts.old diags.old stmts.old
        (stepped result counts.new) diags.new stmts.new }
{
    let rows = toks.rows();
    let b = values::used(rows, right.term)?;
    let otherwise = operand(toks, b, Side::Right, Ty::U16);
    let term = fitting::narrow_to(rows, diags, counts, Ty::U16, p, b, Err(otherwise))?;
    let next = right.next;
    Ok(join(toks, stmts, place, at, left, Valued { term, next }))
}

// ---- callees

// The token of the called name: a path's last name, a member's name, else the first token of the expression at row i.
fn called_name(nodes: &[u64], i: usize) -> u64
    requires { TreeAt nodes.now i }
    ensures { (e : Expr) → RepAt nodes.now i e → result ≡ called_name e }
{
    let t = rows::node_word(nodes, i, NodeRow::TOKEN);
    match rows::node_word(nodes, i, NodeRow::KIND) {
        NodeKind::PATH => t + 2 * rows::node_word(nodes, i, NodeRow::FIRST),
        NodeKind::MEMBER => rows::node_word(nodes, i, NodeRow::SECOND),
        _ => t,
    }
}

// Whether one of the arguments from row first - 1 on is named, of the call at row i.
fn any_named(nodes: &[u64], i: usize, first: usize) -> bool
    requires { ChainFits nodes.now i first }
    ensures { (ps : List Passed) → ArgsAt nodes.now i first ps → result ≡ any_named (passed none_given ps) }
{
    let mut next = first;
    while next != 0 {
        let j = next - 1;
        if rows::node_word(nodes, j, NodeRow::KIND) == NodeKind::NAMED_ARGUMENT {
            return true;
        }
        next = rows::node_word(nodes, j, NodeRow::SECOND) as usize;
    }
    false
}

// The callee of the call at row i, which is no void value. A named argument stops everything before any argument is judged.
fn callable(scope: &Scope, stmts: &mut [u64], i: usize, at: usize, c: Term) -> Result<Callee, Halt>
    requires { (at + 1 < most_rows) × CallFits scope.now.nodes.now i }
    ensures { CalleeIs scope.now.toks.now scope.now.nodes.now i at c result stmts.old stmts.new }
{
    let nodes = scope.nodes;
    let name = called_name(nodes, rows::node_word(nodes, i, NodeRow::FIRST) as usize);
    let ty = values::type_of(c);
    if ty.kind != Ty::FUNCTION {
        let tok = scope.toks.at(name);
        return Err(Halt::Found(Diagnostic::at(tok, What::NotCallable(ty))));
    }
    if any_named(
        nodes,
        i,
        rows::node_word(nodes, i, NodeRow::SECOND) as usize,
    ) {
        return Err(Halt::Stopped(rows::node_word(nodes, i, NodeRow::THIRD)));
    }
    holding::put_part(scope.toks.rows(), stmts, at + 1, StatementRow::CALLEE, 0, c);
    Ok(Callee {
        name,
        entry: ty.entry,
    })
}

// ---- expressions

// Goes down the left spine from row i, as far as there is room for its rows.
fn descend(nodes: &[u64], rows: &mut [usize; Spine::ROOM], i: usize) -> Spine
    requires tree_at { TreeAt nodes.now i }
    requires rows_len { length rows.old ≡ 64 }
    ensures { Descended result nodes.now rows.new i }
{
    let mut depth = 0;
    let mut row = i;
    while depth < Spine::ROOM {
        if rows::node_word(nodes, row, NodeRow::KIND) < NodeKind::MEMBER {
            return Spine { depth, row };
        }
        rows[depth] = row;
        row = rows::node_word(nodes, row, NodeRow::FIRST) as usize;
        depth += 1;
    }
    Spine { depth, row }
}

// Judges the expression at row i. Row `at` of what is held is kept for its own row.
#[cycle(call_climb_judge_slash_step)]
pub fn judge(
    scope: &Scope,
    diags: &mut [u64],
    counts: &mut Counts,
    stmts: &mut [u64],
    i: usize,
    at: usize,
) -> Result<Valued, Halt>
    requires ready { Ready scope.now.toks.now scope.now.bindings.now scope.now.imports.now counts.old }
    requires fits { Fits scope.now.nodes.now i at counts.old }
    ensures { (n : ℕ) (k : Known) (e : Expr) → n ≡ counts.old.number
        → Knows scope.now.toks.now scope.now.bindings.now scope.now.imports.now counts.old k → RepAt scope.now.nodes.now i e
        → Agrees scope.now.toks.now (stepped result counts.new) diags.old diags.new stmts.old stmts.new counts.old at
        (judge (contents (tokens scope.now.toks.now)) n k e) }
{
    if rows::node_word(scope.nodes, i, NodeRow::KIND) < NodeKind::MEMBER {
        return lowest(scope, counts, i, at);
    }
    let mut rows = [0usize; Spine::ROOM];
    let s = descend(scope.nodes, &mut rows, i);
    let depth = s.depth;
    let row = s.row;
    let below = at + depth;
    if rows::node_word(scope.nodes, row, NodeRow::KIND) < NodeKind::MEMBER {
        let bottom = lowest(scope, counts, row, below)?;
        return climb(scope, diags, counts, stmts, &rows, i, depth, at, bottom);
    }
    // the spine has no room left
    let bottom = judge(scope, diags, counts, stmts, row, below)?;
    climb(scope, diags, counts, stmts, &rows, i, depth, at, bottom)
}

// Goes up again, from what stands that deep in the spine of row i and came to `bottom`.
#[cycle(call_climb_judge_slash_step)]
fn climb(
    scope: &Scope,
    diags: &mut [u64],
    counts: &mut Counts,
    stmts: &mut [u64],
    rows: &[usize; Spine::ROOM],
    i: usize,
    deep: usize,
    at: usize,
    bottom: Valued,
) -> Result<Valued, Halt>
    requires ready { Ready scope.now.toks.now scope.now.bindings.now scope.now.imports.now counts.old × (deep ≤ 64) }
    requires climb_fits { ClimbFits scope.now.toks.now scope.now.bindings.now scope.now.imports.now scope.now.nodes.now rows.now i deep at
        (stepped (Ok bottom) counts.old) diags.old stmts.old }
    ensures { (n : ℕ) (k : Known) (e d : Expr) (row : ℕ) (x u : List ℕ) (c : Counts) → n ≡ c.number
        → Knows scope.now.toks.now scope.now.bindings.now scope.now.imports.now c k
        → RepAt scope.now.nodes.now i e → Down scope.now.nodes.now rows.now i e deep row d
        → Agrees scope.now.toks.now (stepped (Ok bottom) counts.old) x diags.old u stmts.old c (at + deep)
        (judge (contents (tokens scope.now.toks.now)) n k d)
        → Agrees scope.now.toks.now (stepped result counts.new) x diags.new u stmts.new c at
        (judge (contents (tokens scope.now.toks.now)) n k e) }
{
    let mut then = bottom;
    let mut depth = deep;
    while depth != 0 {
        depth -= 1;
        let row = rows[depth];
        then = step(scope, diags, counts, stmts, row, at + depth, then)?;
    }
    Ok(then)
}

// What stands at row i, with what its left came to.
#[cycle(call_climb_judge_slash_step)]
fn step(
    scope: &Scope,
    diags: &mut [u64],
    counts: &mut Counts,
    stmts: &mut [u64],
    i: usize,
    at: usize,
    left: Valued,
) -> Result<Valued, Halt>
    requires ready { Ready scope.now.toks.now scope.now.bindings.now scope.now.imports.now counts.old }
    requires step_fits { StepFits scope.now.nodes.now i at left.next counts.old }
    ensures { (n : ℕ) (k : Known) (e : Expr) (d : terms.Term) (u : List ℕ) → n ≡ counts.old.number
        → Knows scope.now.toks.now scope.now.bindings.now scope.now.imports.now counts.old k
        → RepAt scope.now.nodes.now i e → Left scope.now.toks.now u stmts.old (at + 1) d left.term left.next
        → Agrees scope.now.toks.now (stepped result counts.new) diags.old diags.new u stmts.new counts.old at
        (rest (contents (tokens scope.now.toks.now)) n k e d) }
{
    let term = values::used(scope.toks.rows(), left.term)?;
    let next = left.next;
    match rows::node_word(scope.nodes, i, NodeRow::KIND) {
        NodeKind::MEMBER => Err(member(
            scope.toks,
            rows::node_word(scope.nodes, i, NodeRow::SECOND),
            term,
        )),
        NodeKind::SLASH => slash(scope, diags, counts, stmts, i, at, Valued { term, next }),
        _ => {
            let f = callable(scope, stmts, i, at, term)?;
            call(scope, diags, counts, stmts, i, f, Valued { term, next })
        }
    }
}

// `left / right` at row i.
#[cycle(call_climb_judge_slash_step)]
fn slash(
    scope: &Scope,
    diags: &mut [u64],
    counts: &mut Counts,
    stmts: &mut [u64],
    i: usize,
    at: usize,
    left: Valued,
) -> Result<Valued, Halt>
    requires ready { Ready scope.now.toks.now scope.now.bindings.now scope.now.imports.now counts.old }
    requires step_fits { StepFits scope.now.nodes.now i at left.next counts.old × (node_word scope.now.nodes.now i 0 ≡ 7) }
    ensures { (n : ℕ) (k : Known) (a b : Expr) (d : terms.Term) (u : List ℕ) → n ≡ counts.old.number
        → Knows scope.now.toks.now scope.now.bindings.now scope.now.imports.now counts.old k
        → RepAt scope.now.nodes.now i (slash' a b) → Left scope.now.toks.now u stmts.old (at + 1) d left.term left.next
        → Agrees scope.now.toks.now (stepped result counts.new) diags.old diags.new u stmts.new counts.old at
        (going (contents (tokens scope.now.toks.now)) n k (slash' a b) d) }
{
    if left.term.kind != Ty::IP4 {
        return Err(operand(scope.toks, left.term, Side::Left, Ty::IP4));
    }
    let b = rows::node_word(scope.nodes, i, NodeRow::SECOND) as usize;
    let right = judge(scope, diags, counts, stmts, b, left.next)?;
    divide(
        scope.toks,
        diags,
        counts,
        stmts,
        rows::node_word(scope.nodes, i, NodeRow::TOKEN),
        rows::node_word(scope.nodes, b, NodeRow::TOKEN),
        at,
        left,
        right,
    )
}

// The call at row i of the callee f, which came to `left`: its arguments are judged from left to right, and then bound.
#[cycle(call_climb_judge_slash_step)]
fn call(
    scope: &Scope,
    diags: &mut [u64],
    counts: &mut Counts,
    stmts: &mut [u64],
    i: usize,
    f: Callee,
    left: Valued,
) -> Result<Valued, Halt>
    requires ready { Ready scope.now.toks.now scope.now.bindings.now scope.now.imports.now counts.old }
    requires call_fits { CallFits scope.now.nodes.now i × ArgsFit scope.now.nodes.now i (node_word scope.now.nodes.now i 3) left.next counts.old }
    ensures { (n : ℕ) (k : Known) (ps : List Passed) → n ≡ counts.old.number
        → Knows scope.now.toks.now scope.now.bindings.now scope.now.imports.now counts.old k
        → ArgsAt scope.now.nodes.now i (node_word scope.now.nodes.now i 3) ps
        → Calls scope.now.toks.now n k (passed none_given ps) f.name f.entry left.next counts.old diags.old stmts.old
        (stepped result counts.new) diags.new stmts.new }
{
    let mut kept = arguments::none_kept(left.term);
    let mut row = left.next;
    let mut next = rows::node_word(scope.nodes, i, NodeRow::SECOND) as usize;
    // `bind` is called at two places, so that it stays a function of its own: its frame is not held while arguments are judged
    if next == 0 {
        let none = arguments::bind(
            scope.toks.rows(),
            diags,
            counts,
            stmts,
            f.name,
            f.entry,
            kept,
        )?;
        return Ok(Valued {
            term: none,
            next: row,
        });
    }
    while next != 0 {
        let j = next - 1;
        let e = rows::node_word(scope.nodes, j, NodeRow::FIRST) as usize;
        let value = judge(scope, diags, counts, stmts, e, row)?;
        let term = values::used(scope.toks.rows(), value.term)?;
        let first = rows::node_word(scope.nodes, e, NodeRow::TOKEN);
        kept = arguments::keep(kept, Given { term, row, first });
        row = value.next;
        next = rows::node_word(scope.nodes, j, NodeRow::SECOND) as usize;
    }
    let term = arguments::bind(
        scope.toks.rows(),
        diags,
        counts,
        stmts,
        f.name,
        f.entry,
        kept,
    )?;
    Ok(Valued { term, next: row })
}
