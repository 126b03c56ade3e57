#![tactic(auto)]
// RFC 3629: one character of a source, and the first place where none starts.
ghost use Rattle.std.specs.Prelude.{◌≡◌, true, suc, ◌+◌, ◌≤◌, ◌<◌, length, drop, get_or};
ghost use Rattle.language.specs.Utf8.{lead_of, follow, char_at, first_bad};
ghost use Rattle.utf8.specs.Decoding.{leading, placed, bad_of, Small, Passed};
ghost use Rattle.utf8.specs.Ascii.{is_ascii};

use classes::Class;

// A character that stands at a place.
#[derive(Clone, Copy)]
pub struct Decoded {
    pub number: u32,
    // Where the next character begins.
    pub next: usize,
}

// What a first octet says: how many octets follow, the least and the greatest that may come next, and this octet's bits of
// the number.
#[derive(Clone, Copy)]
struct Lead {
    tails: usize,
    low: u8,
    high: u8,
    bits: u32,
}

fn starts(tails: usize, low: u8, high: u8, bits: u32) -> Option<Lead>
    ensures { result ≡ Some (record { tails = tails; low = low; high = high; bits = bits }) }
{
    Some(Lead {
        tails: tails,
        low: low,
        high: high,
        bits: bits,
    })
}

// The rows of section 4. The octet after E0, ED, F0 or F4 has bounds of its own: they leave out the longer encodings
// of a smaller number, the surrogates, and the numbers past 10FFFF.
fn lead_of(b: u8) -> Option<Lead>
    ensures { result ≡ leading (lead_of b) }
{
    let octet = u32::from(b);
    match b {
        0..=0x7F => starts(0, 0x80, 0xBF, octet),
        0xC2..=0xDF => starts(1, 0x80, 0xBF, octet - 0xC0),
        0xE0 => starts(2, 0xA0, 0xBF, octet - 0xE0),
        0xE1..=0xEC => starts(2, 0x80, 0xBF, octet - 0xE0),
        0xED => starts(2, 0x80, 0x9F, octet - 0xE0),
        0xEE..=0xEF => starts(2, 0x80, 0xBF, octet - 0xE0),
        0xF0 => starts(3, 0x90, 0xBF, octet - 0xF0),
        0xF1..=0xF3 => starts(3, 0x80, 0xBF, octet - 0xF0),
        0xF4 => starts(3, 0x80, 0x8F, octet - 0xF0),
        _ => None,
    }
}

// The character that starts at `at`, by what its first octet says.
fn read_tails(src: &[u8], at: usize, lead: Lead) -> Option<Decoded>
    requires at_in_bounds { at < length src.now }
    requires small { Small lead.tails lead.low lead.high lead.bits }
    ensures { result ≡ placed at (follow (suc lead.tails) lead.tails lead.low lead.high lead.bits (drop (at + 1) src.now)) }
{
    let mut low = lead.low;
    let mut high = lead.high;
    let mut number = lead.bits;
    let mut left = lead.tails;
    let mut next = at + 1;
    // Counted down, which the compiler unrolls: a `for` was tried, and is slower by a tenth.
    while 0 < left {
        let b = *src.get(next)?;
        if b < low || high < b {
            return None;
        }
        // Six bits of the number in each octet.
        number = number * 64 + u32::from(b - 0x80);
        // The bounds were those of the octet after the first.
        low = 0x80;
        high = 0xBF;
        left -= 1;
        next += 1;
    }
    Some(Decoded {
        number: number,
        next: next,
    })
}

// The character that starts at a place with an octet that is not ASCII.
fn longer(src: &[u8], at: usize) -> Option<Decoded>
    requires { (at < length src.now) × (0x80 ≤ get_or src.now at 0) }
    ensures { result ≡ placed at (char_at (drop at src.now)) }
{
    let lead = lead_of(src[at])?;
    read_tails(src, at, lead)
}

// The character that starts at a place, or none: no well-formed one starts there, or the source is at its end.
pub fn decode(src: &[u8], at: usize) -> Option<Decoded>
    ensures { result ≡ placed at (char_at (drop at src.now)) }
{
    let b = *src.get(at)?;
    // Most sources are ASCII: that is answered at once.
    if b < 128 {
        return Some(Decoded {
            number: u32::from(b),
            next: at + 1,
        });
    }
    longer(src, at)
}

// ---- runs of ASCII, which most sources are

struct Ascii {}

impl Class for Ascii {
    ghost member = { is_ascii };

    #[tactic(auto, unfolding(crate::specs::Ascii::is_ascii))]
    fn has(b: u8) -> bool {
        b < 128
    }
}

// A place further on in a run of ASCII, by whole blocks of 32 bytes. A loop of its own, and not `past_blocks`: a must-fail edit is of its two
// halves.
fn ascii_blocks(src: &[u8], at: usize) -> usize
    requires { at ≤ length src.now }
    ensures { Passed src.now at result }
{
    let mut i = at;
    while i + 32 <= src.len() {
        let first = classes::all_of::<Ascii>(&src[i..i + 16]);
        let second = classes::all_of::<Ascii>(&src[i + 16..i + 32]);
        if !(first & second) {
            return i;
        }
        i += 32;
    }
    i
}

// The end of a run of ASCII: by blocks of 32 bytes, then of eight, then byte by byte.
fn ascii_end(src: &[u8], at: usize) -> usize
    requires { at ≤ length src.now }
    ensures { Passed src.now at result }
{
    let blocks = ascii_blocks(src, at);
    classes::long_run_end::<Ascii, 8>(src, blocks)
}

// A character of two octets, which most that are not ASCII are: nothing is asked of its number. False only says that it is
// not seen here.
fn two_octets(src: &[u8], at: usize) -> bool
    requires { at < length src.now }
    ensures { result ≡ true → Passed src.now at (at + 2) }
{
    let Some(&tail) = src.get(at + 1) else {
        return false;
    };
    let b = src[at];
    (0xC2 <= b) & (b <= 0xDF) & ((0x80 <= tail) & (tail <= 0xBF))
}

// The end of a run of such characters. Where they stand together, as in Greek or Russian, a loop that asks for nothing else is faster.
fn two_octets_end(src: &[u8], at: usize) -> usize
    requires { at ≤ length src.now }
    ensures { Passed src.now at result }
{
    let mut i = at;
    while i + 1 < src.len() && two_octets(src, i) {
        i += 2;
    }
    i
}

// The first byte, stepping by whole characters, where no well-formed one starts.
pub fn first_bad(src: &[u8]) -> Option<usize>
    ensures { result ≡ bad_of (first_bad src.now) }
{
    let mut i = ascii_end(src, 0);
    while i < src.len() {
        if src[i] < 128 {
            i = ascii_end(src, i + 1);
            continue;
        }
        if two_octets(src, i) {
            i = two_octets_end(src, i + 2);
            continue;
        }
        let Some(here) = longer(src, i) else {
            return Some(i);
        };
        i = here.next;
    }
    None
}
