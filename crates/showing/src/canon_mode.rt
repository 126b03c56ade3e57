// The mode `canon`: the text is one line of the answer, in hex.
use printing::output::Output;
use printing::{input, verdict};
use rows::Verdict;

pub fn answer(
    out: &mut Output<impl Print + Eprint>,
    source: &[u8],
    tokens: &mut [u64],
    text: &mut [u8],
) {
    let made = canon::canonicalise(source, tokens, text);
    let v = made.verdict;
    if v.number != Verdict::DONE {
        verdict::refused(out, v);
        return;
    }
    out.byte(b'x');
    out.hex(input::first(text, made.bytes as usize));
    out.byte(b'\n');
}
