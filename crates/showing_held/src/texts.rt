// Parts of the constant table's text, which is lent and which rows name by where they start and end.
use constants::Constants;
use printing::output::Output;

pub fn plain(out: &mut Output<impl Print + Eprint>, text: &[u8], start: u64, end: u64) {
    out.text(parts::part(text, start as usize, end as usize));
}

// The part's bytes in hex, an `x` before them.
pub fn hex(out: &mut Output<impl Print + Eprint>, text: &[u8], start: u64, end: u64) {
    out.byte(b'x');
    out.hex(parts::part(text, start as usize, end as usize));
}

// A blank, and the name of an entry.
pub fn entry(out: &mut Output<impl Print + Eprint>, text: &[u8], k: u64) {
    let table = Constants::new();
    let rows = table.rows;
    let start = constants::entry_word(&rows, k, Constants::NAME_START);
    let end = constants::entry_word(&rows, k, Constants::NAME_END);
    out.byte(b' ');
    plain(out, text, start, end);
}

// A blank, and the name of parameter i of an entry: no name where it has no such parameter.
pub fn param(out: &mut Output<impl Print + Eprint>, text: &[u8], k: u64, i: u64) {
    let signature = constants::signature_of(k);
    out.byte(b' ');
    if signature.params <= i {
        return;
    }
    let param = if i == 0 {
        signature.first
    } else {
        signature.second
    };
    plain(out, text, param.start, param.end);
}
