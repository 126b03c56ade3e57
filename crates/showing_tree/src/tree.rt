// Trees from the table of nodes, where a child's row stands before its parent's, and an argument's before the next one's. A row
// that does not is not shown, so the walk ends on any table.
use crate::node::Node;
use crate::{leaf, node};
use printing::output::Output;
use rows::NodeKind;

// The tree of a row, a blank before each expression and argument.
#[cycle(arguments_rest_show)]
fn show(
    out: &mut Output<impl Print + Eprint>,
    source: &[u8],
    tokens: &[u64],
    nodes: &[u64],
    i: usize,
) {
    let n = node::node_at(nodes, i);
    leaf::start(out, source, tokens, n);
    if n.kind < NodeKind::MEMBER || n.kind == NodeKind::IMPORT {
        leaf::end(out, source, tokens, nodes, i, n);
        return;
    }
    if i <= n.first {
        return;
    }
    show(out, source, tokens, nodes, n.first);
    rest(out, source, tokens, nodes, i, n);
    out.byte(b')');
}

// What a row shows after its first child.
#[cycle(arguments_rest_show)]
fn rest(
    out: &mut Output<impl Print + Eprint>,
    source: &[u8],
    tokens: &[u64],
    nodes: &[u64],
    i: usize,
    n: Node,
) {
    let kind = n.kind;
    match kind {
        NodeKind::MEMBER => leaf::name(out, source, tokens, n.second),
        NodeKind::SLASH => {
            if n.second < i {
                show(out, source, tokens, nodes, n.second);
            }
        }
        NodeKind::CALL => arguments(out, source, tokens, nodes, i, n.second),
        _ => {}
    }
}

// The arguments of the call in row `i`, from the first on: `start` is its row plus 1, and each has that of the next, 0 for none.
#[cycle(arguments_rest_show)]
fn arguments(
    out: &mut Output<impl Print + Eprint>,
    source: &[u8],
    tokens: &[u64],
    nodes: &[u64],
    i: usize,
    start: usize,
) {
    let mut shown = 0;
    let mut next = start;
    // no `for`: the next row is read from the one that is shown
    while shown < next {
        if i < next {
            return;
        }
        show(out, source, tokens, nodes, next - 1);
        shown = next;
        next = node::node_at(nodes, next - 1).second;
    }
}

// The line of the statement in row `i`: nothing for a row that is none.
fn statement(
    out: &mut Output<impl Print + Eprint>,
    source: &[u8],
    tokens: &[u64],
    nodes: &[u64],
    i: usize,
) {
    if node::node_at(nodes, i).kind < NodeKind::IMPORT {
        return;
    }
    show(out, source, tokens, nodes, i);
    out.byte(b'\n');
}

// The statements among the first `count` rows.
pub fn statements(
    out: &mut Output<impl Print + Eprint>,
    source: &[u8],
    tokens: &[u64],
    nodes: &[u64],
    count: usize,
) {
    for i in 0..count {
        statement(out, source, tokens, nodes, i);
    }
}
