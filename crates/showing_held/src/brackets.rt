// The expressions that are open: those of which not all parts are shown yet, the outermost first. A row of the table of statements
// says how many parts follow it, so that brackets are closed by counting, with no recursion.
ghost use Rattle.std.specs.Prelude.{◌≤◌};

use crate::texts;
use printing::output::Output;
use rows::StatementRow;

// Three words each, in one array, as in the tables that are lent.
#[derive(Clone, Copy)]
pub struct Open {}

impl Open {
    // How many there is room for. An argument can be a `/` that has a call in it, which has the next list; as `/` gives no address and
    // a call no function, a list has no more levels. So 32 lists come to 65, and a table that needs more is none of a check's.
    pub const ROOM: usize = 96;

    pub const WORDS: usize = 3;

    // how many of its parts come after the next one
    const LEFT: usize = 0;

    // what it is to the expression that it stands below
    const KIND: usize = 1;

    // of a call the function's entry
    const ENTRY: usize = 2;
}

// Opens one more. Where there is no room for it, it is not kept.
pub fn push(
    stack: &mut [u64; Open::ROOM * Open::WORDS],
    depth: usize,
    left: u64,
    kind: u64,
    entry: u64,
) -> usize
    requires { depth ≤ 96 }
    ensures { result ≤ 96 }
{
    if depth < Open::ROOM {
        let word = Open::WORDS * depth;
        stack[word + Open::LEFT] = left;
        stack[word + Open::KIND] = kind;
        stack[word + Open::ENTRY] = entry;
        return depth + 1;
    }
    depth
}

// The bracket of an expression of some kind; that of an argument stands in one more.
fn bracket(out: &mut Output<impl Print + Eprint>, kind: u64) {
    out.byte(b')');
    if kind == StatementRow::ARGUMENT {
        out.byte(b')');
    }
}

// What stands after a part of some kind, in the expression that it is a part of: after a callee the name of the function.
fn after(out: &mut Output<impl Print + Eprint>, text: &[u8], kind: u64, entry: u64) {
    if kind == StatementRow::CALLEE {
        texts::entry(out, text, entry);
    }
}

// Closes an expression of some kind, and each that it was the last part of, and answers how many are open then. After the
// outermost the line ends.
pub fn close(
    out: &mut Output<impl Print + Eprint>,
    text: &[u8],
    stack: &mut [u64; Open::ROOM * Open::WORDS],
    depth: usize,
    kind: u64,
) -> usize
    requires { depth ≤ 96 }
    ensures { result ≤ 96 }
{
    bracket(out, kind);
    let mut closed = kind;
    for i in (0..depth).rev() {
        let word = Open::WORDS * i;
        after(out, text, closed, stack[word + Open::ENTRY]);
        if 0 < stack[word + Open::LEFT] {
            stack[word + Open::LEFT] -= 1;
            return i + 1;
        }
        closed = stack[word + Open::KIND];
        bracket(out, closed);
    }
    out.byte(b'\n');
    0
}
