#![tactic(auto)]
// Numbers: the integer that a word is, and dotted quads. Ports the integer and IPv4 literals of lex.rs `Scanner`; the
// definitions are `Lexemes` of the crate `language`.
ghost use Rattle.std.specs.Prelude.{◌≡◌, ◌≤◌, ◌<◌, length, drop};
ghost use Rattle.std.proofs.Math.Option.{some};
ghost use Rattle.language.specs.Lexemes.{is_digit, is_word, digit_of, read_digits, starts_hex, starts_zero, integer, octet, quad_from};
ghost use Rattle.lexemes.specs.Kinds.{kind_as, read_kind};
ghost use Rattle.language.specs.Tokens.{between};
ghost use Rattle.classes.specs.Runs.{run_end};
ghost use Rattle.numerals.specs.Numerals.{number_as, octet_as, Below, joined_as, quad_as};

use lexemes::{LexErrorKind, LexemeKind};
use rows::Tok;
use wide::{Base, Decimal, Hexadecimal, Wide};

// ---- digits

// What a digit stands for, 16 where a byte is no digit.
fn digit(b: u8) -> u64
    ensures { result ≡ digit_of b }
{
    match b {
        b'0'..=b'9' => (b - b'0') as u64,
        b'a'..=b'f' => (b - b'a') as u64 + 10,
        b'A'..=b'F' => (b - b'A') as u64 + 10,
        _ => 16,
    }
}

// The number that digits are in a base. A byte that is no digit is found before a value that is too large.
fn read_digits<B: Base>(digits: &[u8]) -> Result<Wide, LexErrorKind>
    ensures { result ≡ number_as (read_digits B.BASE 0 digits.now) }
{
    let mut v = Wide::default();
    for b in digits {
        let d = digit(*b);
        if B::BASE <= d {
            return Err(LexErrorKind::IntInvalidSuffix);
        }
        v = B::push(v, d).ok_or(LexErrorKind::IntOutOfRange)?;
    }
    Ok(v)
}

// ---- integers

// `0x` and a hex digit.
fn starts_hex(line: &[u8], at: usize) -> bool
    requires { at < length line.now }
    ensures { result ≡ starts_hex (drop at line.now) }
{
    if runs::peek(line, at) != b'0' {
        return false;
    }
    if runs::peek(line, at + 1) != b'x' {
        return false;
    }
    let b = runs::peek(line, at + 2);
    digit(b) < 16
}

// `0` and another digit.
fn starts_zero(line: &[u8], at: usize) -> bool
    requires { at < length line.now }
    ensures { result ≡ starts_zero (drop at line.now) }
{
    if runs::peek(line, at) != b'0' {
        return false;
    }
    let b = runs::peek(line, at + 1);
    runs::is_digit(b)
}

// The literal that a word is.
fn literal(line: &[u8], at: usize, end: usize) -> Result<Tok, LexErrorKind>
    requires { (at < length line.now) × (end ≡ run_end is_word line.now at) }
    ensures { read_kind result ≡ kind_as (integer (between line.now at end)) }
{
    if starts_hex(line, at) {
        let v = read_digits::<Hexadecimal>(&line[at + 2..end])?;
        return Ok(Tok::HexLiteral(v));
    }
    if starts_zero(line, at) {
        return Err(LexErrorKind::IntLeadingZero);
    }
    let v = read_digits::<Decimal>(&line[at..end])?;
    Ok(Tok::DecLiteral(v))
}

// The integer that a word is.
pub fn integer(line: &[u8], at: usize, end: usize) -> LexemeKind
    requires { (at < length line.now) × (end ≡ run_end is_word line.now at) }
    ensures { result ≡ kind_as (integer (between line.now at end)) }
{
    LexemeKind::from(literal(line, at, end))
}

// ---- quads

// A number of a quad: at most three digits, no leading zero, up to 255.
fn quad_part(line: &[u8], at: usize, end: usize) -> Option<u32>
    requires { (at < end) × (end ≡ run_end is_digit line.now at) }
    ensures { result ≡ octet_as (octet (between line.now at end)) }
{
    if 3 < end - at {
        return None;
    }
    if starts_zero(line, at) {
        return None;
    }
    let Ok(v) = read_digits::<Decimal>(&line[at..end]) else {
        return None;
    };
    let lo = v.lo;
    if v.hi == 0 && lo <= 255 {
        return Some(lo as u32);
    }
    None
}

// Four runs of digits with dots between: where they end, and their address, if each is a number of a quad.
#[derive(Clone, Copy)]
pub struct Quad {
    pub end: usize,
    pub address: Option<u32>,
}

// An address with one number more.
fn join(address: Option<u32>, n: Option<u32>) -> Option<u32>
    requires { Below 16777216 address × Below 256 n }
    ensures { result ≡ joined_as address n }
{
    Some(address? * 256 + n?)
}

// Four runs of digits with dots between, from `at` on.
pub fn dotted_quad(line: &[u8], at: usize) -> Option<Quad>
    requires { at < length line.now }
    ensures { result ≡ quad_as at (quad_from 3 (some 0) (drop at line.now)) }
{
    let mut i = at;
    let mut dots: usize = 3;
    let mut address = Some(0);
    loop {
        let end = runs::eat_digits(line, i);
        if end == i {
            return None;
        }
        if dots == 0 {
            let last = quad_part(line, i, end);
            return Some(Quad {
                end,
                address: join(address, last),
            });
        }
        // most numbers are no quad: that is seen before one is read
        if runs::peek(line, end) != b'.' {
            return None;
        }
        let n = quad_part(line, i, end);
        address = join(address, n);
        i = end + 1;
        dots -= 1;
    }
}
