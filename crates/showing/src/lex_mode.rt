// The mode `lex`: each token is a line of the answer. A string is shown as the list of its raw bodies.
use printing::output::Output;
use printing::{token, verdict};
use rows::{TokKind, Token, Verdict};

fn line_of(out: &mut Output<impl Print + Eprint>, source: &[u8], t: Token) {
    out.pair(t.line, t.column);
    token::show(out, source, t);
    if t.kind == TokKind::STRING_LITERAL {
        token::bodies(out, source, t);
    }
    out.byte(b'\n');
}

// The first `count` rows of the table.
fn tokens(out: &mut Output<impl Print + Eprint>, source: &[u8], table: &[u64], count: u64) {
    for i in 0..count {
        line_of(out, source, token::row_at(table, i as usize));
    }
}

pub fn answer(out: &mut Output<impl Print + Eprint>, source: &[u8], table: &mut [u64]) {
    let lexed = lex::lex_source(source, table);
    let v = lexed.verdict;
    if v.number != Verdict::DONE {
        verdict::refused(out, v);
        return;
    }
    tokens(out, source, table, lexed.tokens);
}
