#![tactic(auto)]
// The table of what is held: the row of a statement, and those of the parts of its expression. Ports what hir.rs keeps.
ghost use Rattle.std.specs.Prelude.{List, ℕ, ◌≤◌, ◌<◌, length};
ghost use Rattle.language.specs.Tables.{token_width};
ghost use Rattle.rows.specs.Tokens.{TokenTable};
ghost use Rattle.holding.specs.Holding.{most_rows, Puts};

use rows::StatementRow;
use values::Term;

// The value of an expression, and the next free row of the table of what is held: the rows of its parts were written. Its own row is
// kept free, for whoever asked to write it.
#[derive(Clone, Copy)]
pub struct Valued {
    pub term: Term,
    pub next: usize,
}

// Writes a row where it fits: it stands at the token `at`.
pub fn put(toks: &[u64], stmts: &mut [u64], row: usize, at: u64, kind: u64, slot: u64, v: Term)
    requires { (token_width ≤ length toks.now) × (row < most_rows) }
    ensures { (s : List ℕ) → TokenTable s toks.now → Puts s row at kind slot v stmts.old stmts.new }
{
    let own = rows::token_at(toks, at);
    let place = rows::token_at(toks, v.at);
    let ty = values::type_of(v);
    let text = values::shown(v);
    let words: [u64; StatementRow::WORDS] = [
        own.line,
        own.column,
        kind,
        slot,
        v.form,
        place.line,
        place.column,
        ty.kind,
        text.from,
        text.start,
        text.end,
    ];
    table::put_row(stmts, row, &words);
}

// Writes the row of a part, which stands where its expression does.
pub fn put_part(toks: &[u64], stmts: &mut [u64], row: usize, kind: u64, slot: u64, v: Term)
    requires { (token_width ≤ length toks.now) × (row < most_rows) }
    ensures { (s : List ℕ) → TokenTable s toks.now → Puts s row v.at kind slot v stmts.old stmts.new }
{
    put(toks, stmts, row, v.at, kind, slot, v);
}
