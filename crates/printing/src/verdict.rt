// What is printed where there is no answer.
use crate::output::Output;
use crate::token;
use rows::Verdict;

// Which kind of its number a refusal is, for the numbers that have kinds.
fn kind_of(out: &mut Output<impl Print + Eprint>, verdict: Verdict) {
    let number = verdict.number;
    match number {
        Verdict::LEXICAL => {
            out.byte(b' ');
            token::show_error(out, verdict.kind, verdict.character);
        }
        Verdict::SYNTAX => {
            if verdict.kind == Verdict::UNEXPECTED_TOKEN {
                out.text(b" UnexpectedToken");
            } else {
                out.text(b" IntOutOfRange");
            }
        }
        _ => {}
    }
}

// The number, the place and the kind.
pub fn refused(out: &mut Output<impl Print + Eprint>, verdict: Verdict) {
    out.refused(verdict.number, verdict.line, verdict.column);
    kind_of(out, verdict);
    out.byte(b'\n');
}
