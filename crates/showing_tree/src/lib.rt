#![tactic(auto)]
// The mode `parse`: each statement is a line of the answer, its tree rebuilt from the tables of nodes and tokens. A string
// is shown as the list of its raw bodies.
mod leaf;
mod node;
mod tree;

use printing::output::Output;
use printing::verdict;
use rows::Verdict;

pub fn answer(
    out: &mut Output<impl Print + Eprint>,
    source: &[u8],
    tokens: &mut [u64],
    nodes: &mut [u64],
) {
    let parsed = parse::parse_source(source, tokens, nodes);
    let v = parsed.verdict;
    if v.number != Verdict::DONE {
        verdict::refused(out, v);
        return;
    }
    tree::statements(out, source, tokens, nodes, parsed.nodes as usize);
}
