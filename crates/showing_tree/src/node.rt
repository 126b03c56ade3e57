// Rows of the table of nodes. A row that the table does not have is all zeros: nothing here asks that it be one that the
// parser left.
use rows::{NodeRow, node_word};

// What the numbers after its token mean depends on a node's kind. The last one, the token of a call's `(`, is not shown.
#[derive(Clone, Copy)]
pub struct Node {
    pub kind: u64,
    pub token: usize,
    pub first: usize,
    pub second: usize,
}

pub fn node_at(nodes: &[u64], i: usize) -> Node {
    if i < nodes.len() / NodeRow::WORDS {
        return Node {
            kind: node_word(nodes, i, NodeRow::KIND),
            token: node_word(nodes, i, NodeRow::TOKEN) as usize,
            first: node_word(nodes, i, NodeRow::FIRST) as usize,
            second: node_word(nodes, i, NodeRow::SECOND) as usize,
        };
    }
    Node {
        kind: 0,
        token: 0,
        first: 0,
        second: 0,
    }
}
