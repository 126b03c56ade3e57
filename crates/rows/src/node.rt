// Nodes: their kinds, and the reader of a row.
ghost use Rattle.std.specs.Prelude.{◌≡◌, ◌+◌, ◌*◌, ◌<◌, ◌≤◌, length};
ghost use Rattle.language.specs.Sentences.{node_width};
ghost use Rattle.rows.specs.Rows.{node_word};

use crate::layout::NodeRow;

// The kinds, by their numbers; docs/TABLES.md has what each row holds.
#[derive(Clone, Copy)]
pub struct NodeKind {}

impl NodeKind {
    // a further name of a path
    pub const NAME: u64 = 1;

    pub const LITERAL: u64 = 2;
    // an address with a port
    pub const SOCK4: u64 = 3;
    // a name that is no path
    pub const LOCAL: u64 = 4;

    pub const PATH: u64 = 5;

    pub const MEMBER: u64 = 6;

    pub const SLASH: u64 = 7;

    pub const CALL: u64 = 8;

    pub const ARGUMENT: u64 = 9;

    pub const NAMED_ARGUMENT: u64 = 10;

    pub const IMPORT: u64 = 11;

    pub const LET: u64 = 12;
    // an expression as a statement
    pub const EXPRESSION: u64 = 13;
}

// Word j of row i.
pub fn node_word(nodes: &[u64], i: usize, j: usize) -> u64
    requires { (node_width * i + node_width ≤ length nodes.now) × (j < node_width) }
    ensures { result ≡ node_word nodes.now i j }
{
    nodes[NodeRow::WORDS * i + j]
}
