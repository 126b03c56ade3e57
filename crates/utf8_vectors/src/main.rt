#![tactic(auto)]
// Prints what `utf8` makes of each sequence of bytes on standard input, and then a digest of what it makes of every
// sequence of 1, 2 and 3 bytes, and of every sequence of 4 and 5 of the bytes at the grammar's bounds.
//
// A line of input ends with a newline. It has a byte as two hex digits, and one blank between two bytes. What stands
// after the first place with no digits is a note.
//
// The notes of `stdin` say where a sequence comes from. Those of CPython are of its Lib/test/test_unicode.py, and end with
// what is expected there. The tables are those of chapter 3 of the Unicode Standard; a row of Table 3-7 is tried at both ends
// of each range, and one past them.
//
// `stdout` is what Rust's `std::str::from_utf8` says of the same input: oracle/utf8/main.rs made it.
ghost use Rattle.std.specs.Prelude.{◌<◌, ◌≤◌, IfSome};

use printing::output::Output;
use printing::{input, streams};

fn wide(x: u32) -> u64 {
    x as u64
}

// A hex digit's value. Small letters are none here, unlike in `input::digit`.
fn digit(b: u8) -> Option<u8>
    ensures { IfSome result (λ d. d < 16) }
{
    match b {
        b'0'..=b'9' => Some(b - b'0'),
        b'A'..=b'F' => Some(b - b'A' + 10),
        _ => None,
    }
}

// The bytes that a line begins with, 256 at the most, and how many there are.
fn unhex(line: &[u8], out: &mut [u8; 256]) -> usize
    ensures { result ≤ 256 }
{
    for n in 0usize..256 {
        let i = 3 * n;
        if line.len() <= i + 1 {
            return n;
        }
        let Some(high) = digit(line[i]) else {
            return n;
        };
        let Some(low) = digit(line[i + 1]) else {
            return n;
        };
        out[n] = high * 16 + low;
    }
    256
}

// A blank, unless the line has just begun.
fn gap(out: &mut Output<impl Print + Eprint>, place: usize) {
    if 0 < place {
        out.byte(b' ');
    }
}

fn show_character(out: &mut Output<impl Print + Eprint>, n: u32, place: usize) {
    gap(out, place);
    out.number(wide(n));
}

// The numbers of the characters, up to the first place where none starts.
fn show_characters(out: &mut Output<impl Print + Eprint>, s: &[u8]) {
    let mut place = 0;
    // no `for`: a character says where the next one begins
    while place < s.len() {
        let Some(here) = utf8::decode(s, place) else {
            return;
        };
        show_character(out, here.number, place);
        place = here.next;
    }
}

fn show_bad(out: &mut Output<impl Print + Eprint>, s: &[u8]) {
    let Some(place) = utf8::first_bad(s) else {
        return;
    };
    gap(out, place);
    show_number(out, b"bad ", place as u64);
}

fn show_first(out: &mut Output<impl Print + Eprint>, bytes: [u8; 256], n: usize)
    requires { n ≤ 256 }
{
    let s = &bytes[..n];
    show_characters(out, s);
    show_bad(out, s);
}

fn show_line(out: &mut Output<impl Print + Eprint>, line: &[u8]) {
    let mut bytes = [0u8; 256];
    let n = unhex(line, &mut bytes);
    show_first(out, bytes, n);
    out.byte(b'\n');
}

fn show_lines(out: &mut Output<impl Print + Eprint>, text: &[u8]) {
    let mut from = 0;
    for i in 0..text.len() {
        if text[i] == b'\n' {
            show_line(out, &text[from..i]);
            from = i + 1;
        }
    }
}

// 0 where the first `len` bytes are good throughout, else one more than the place of the first bad byte.
fn verdict(bytes: [u8; 5], len: usize) -> u64
    requires { len ≤ 5 }
    ensures { result ≤ 5 }
{
    match utf8::first_bad(&bytes[..len]) {
        Some(at) => at as u64 + 1,
        None => 0,
    }
}

fn fold(h: u64, x: u64) -> u64
    requires { (h < 4294967291) × (x ≤ 5) }
    ensures { result < 4294967291 }
{
    (h * 31 + x) % 4294967291
}

// The next sequence in order: the last place that can go up does, and those after it begin again. `places` holds for
// each byte where it stands in the alphabet.
fn advance(alphabet: &[u8; 256], last: u8, len: usize, places: &mut [u8; 5], bytes: &mut [u8; 5])
    requires { len ≤ 5 }
{
    for i in (0..len).rev() {
        let p = places[i];
        if p < last {
            places[i] = p + 1;
            bytes[i] = letter(alphabet, p + 1);
            return;
        }
        places[i] = 0;
        bytes[i] = alphabet[0];
    }
}

fn letter(alphabet: &[u8; 256], p: u8) -> u8 {
    alphabet[p as usize]
}

// How many sequences were tried and were good, and the digest of all verdicts.
#[derive(Clone, Copy)]
struct Digest {
    len: usize,
    count: u64,
    good: u64,
    digest: u64,
}

// Every sequence of `len` bytes of an alphabet whose last place is `last`: there are `count`.
fn digest_of(alphabet: &[u8; 256], last: u8, len: usize, count: u64) -> Digest
    requires { len ≤ 5 }
{
    let mut places = [0u8; 5];
    let mut bytes = [alphabet[0]; 5];
    let mut good = 0;
    let mut digest = 7;
    for k in 0..count {
        let x = verdict(bytes, len);
        if x == 0 {
            good += 1;
        }
        digest = fold(digest, x);
        advance(alphabet, last, len, &mut places, &mut bytes);
    }
    Digest {
        len,
        count,
        good,
        digest,
    }
}

fn show_digest(out: &mut Output<impl Print + Eprint>, d: Digest) {
    show_number(out, b"length ", d.len as u64);
    show_number(out, b" count ", d.count);
    show_number(out, b" good ", d.good);
    show_number(out, b" digest ", d.digest);
    out.byte(b'\n');
}

fn show_number(out: &mut Output<impl Print + Eprint>, name: &[u8], n: u64) {
    out.text(name);
    out.number(n);
}

// Every byte.
fn all_bytes() -> [u8; 256] {
    let mut a = [0u8; 256];
    for b in 0..=u8::MAX {
        a[b as usize] = b;
    }
    a
}

// The bytes on both sides of each bound of the grammar.
fn boundary_bytes() -> [u8; 256] {
    let mut a = [0u8; 256];
    let bounds = [
        0x00, 0x7F, 0x80, 0x8F, 0x90, 0x9F, 0xA0, 0xBF, 0xC0, 0xC1, 0xC2, 0xDF, 0xE0, 0xE1, 0xEC,
        0xED, 0xEE, 0xEF, 0xF0, 0xF1, 0xF3, 0xF4, 0xF5, 0xFF,
    ];
    for i in 0..24 {
        a[i] = bounds[i];
    }
    a
}

// Makes a digest and shows it.
fn show_tried(
    out: &mut Output<impl Print + Eprint>,
    alphabet: &[u8; 256],
    last: u8,
    len: usize,
    count: u64,
)
    requires { len ≤ 5 }
{
    let d = digest_of(alphabet, last, len, count);
    show_digest(out, d);
}

fn show_all(out: &mut Output<impl Print + Eprint>) {
    let every = all_bytes();
    show_tried(out, &every, 255, 1, 256);
    show_tried(out, &every, 255, 2, 256 * 256);
    show_tried(out, &every, 255, 3, 256 * 256 * 256);
}

fn show_bounds(out: &mut Output<impl Print + Eprint>) {
    let bounds = boundary_bytes();
    show_tried(out, &bounds, 23, 4, 24 * 24 * 24 * 24);
    show_tried(out, &bounds, 23, 5, 24 * 24 * 24 * 24 * 24);
}

// The answer to a text, which is one that fills the buffer where there may be more of it.
fn answer(out: &mut Output<impl Print + Eprint>, text: &[u8], size: usize) {
    if size == text.len() {
        out.text(b"too long\n");
        return;
    }
    show_lines(out, input::first(text, size));
    show_all(out);
    show_bounds(out);
}

fn run(rt: &(impl Input + Print + Eprint), text: &mut [u8], buffer: &mut [u8]) {
    if let Some(size) = streams::read_full(rt, text, 0) {
        let mut out = Output::new(rt, buffer);
        answer(&mut out, text, size);
        out.flush();
    }
}

fn main(rt: HostRuntime) {
    if streams::no_arguments(&rt) {
        let mut text = [0u8; 65536];
        let mut buffer = [0u8; 65536];
        run(&rt, &mut text, &mut buffer);
    }
}
