// What a row of the table of nodes shows of itself, its children aside.
use crate::node;
use crate::node::Node;
use printing::output::Output;
use printing::token;
use rows::{NodeKind, TokKind, Token, TokenRow};

// A bracket and the word for a node's kind: for a literal that for its token's kind, a number above every node's kind. Only
// a statement has no blank before it.
fn open(out: &mut Output<impl Print + Eprint>, tokens: &[u64], n: Node) {
    let kind = n.kind;
    match kind {
        NodeKind::LITERAL => {
            let t = token::row_at(tokens, n.token);
            opened(out, b" (", t.kind);
        }
        NodeKind::IMPORT | NodeKind::LET | NodeKind::EXPRESSION => opened(out, b"(", kind),
        _ => opened(out, b" (", kind),
    }
}

// The words, up to 13 for a node's kind, then for a token's.
fn opened(out: &mut Output<impl Print + Eprint>, bracket: &[u8], kind: u64) {
    let words = b"\
        - - - sock4 local path member slash call arg named import let expr bool ip4 str int int";
    out.text(bracket);
    out.word(words, kind);
}

fn place(out: &mut Output<impl Print + Eprint>, t: Token) {
    out.field(t.line);
    out.field(t.column);
}

// A blank, and the value of a token that is no string.
fn value(out: &mut Output<impl Print + Eprint>, source: &[u8], t: Token) {
    out.byte(b' ');
    token::show_value(out, source, t);
}

// A name and its place.
pub fn name(out: &mut Output<impl Print + Eprint>, source: &[u8], tokens: &[u64], i: usize) {
    let t = token::row_at(tokens, i);
    value(out, source, t);
    place(out, t);
}

// A node's word, and what stands after it: a name and its place, or the node's own place, or nothing.
pub fn start(out: &mut Output<impl Print + Eprint>, source: &[u8], tokens: &[u64], n: Node) {
    open(out, tokens, n);
    let kind = n.kind;
    match kind {
        NodeKind::ARGUMENT | NodeKind::EXPRESSION => {}
        NodeKind::NAMED_ARGUMENT | NodeKind::IMPORT | NodeKind::LET => {
            name(out, source, tokens, n.token);
        }
        _ => place(out, token::row_at(tokens, n.token)),
    }
}

fn literal(out: &mut Output<impl Print + Eprint>, source: &[u8], t: Token) {
    if t.kind == TokKind::STRING_LITERAL {
        token::bodies(out, source, t);
    } else {
        value(out, source, t);
    }
}

// An address and its port, which is two tokens later.
fn sock4(out: &mut Output<impl Print + Eprint>, source: &[u8], tokens: &[u64], i: usize) {
    value(out, source, token::row_at(tokens, i));
    out.byte(b':');
    if i < tokens.len() / TokenRow::WORDS {
        token::show_value(out, source, token::row_at(tokens, i + 2));
    }
}

// The names of a path: its own token, and those of as many rows before it as it says.
fn names(
    out: &mut Output<impl Print + Eprint>,
    source: &[u8],
    tokens: &[u64],
    nodes: &[u64],
    i: usize,
    n: Node,
) {
    name(out, source, tokens, n.token);
    if i < n.first {
        return;
    }
    for row in i - n.first..i {
        let further = node::node_at(nodes, row);
        name(out, source, tokens, further.token);
    }
}

// What a row with no children has after its start.
fn contents(
    out: &mut Output<impl Print + Eprint>,
    source: &[u8],
    tokens: &[u64],
    nodes: &[u64],
    i: usize,
    n: Node,
) {
    let kind = n.kind;
    match kind {
        NodeKind::LITERAL => literal(out, source, token::row_at(tokens, n.token)),
        NodeKind::SOCK4 => sock4(out, source, tokens, n.token),
        NodeKind::LOCAL => value(out, source, token::row_at(tokens, n.token)),
        NodeKind::PATH => names(out, source, tokens, nodes, i, n),
        _ => {}
    }
}

pub fn end(
    out: &mut Output<impl Print + Eprint>,
    source: &[u8],
    tokens: &[u64],
    nodes: &[u64],
    i: usize,
    n: Node,
) {
    contents(out, source, tokens, nodes, i, n);
    out.byte(b')');
}
