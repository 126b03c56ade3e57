// Types, by the numbers that tables hold for them.
use printing::output::Output;

// The word for a type. A function's name is not shown here.
pub fn word(out: &mut Output<impl Print + Eprint>, ty: u64) {
    let words = b"\
        - void bool u8 u16 u32 u64 Ip4 Sock4 bytes Pkt PktGen TimeJump - function - integer";
    out.word(words, ty);
}
