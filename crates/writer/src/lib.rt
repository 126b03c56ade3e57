#![tactic(auto)]
// Writing into a lent text that may be too short: bytes, and numbers by their digits. Bytes past its end are counted and not
// kept, so that whoever writes judges the count at the end. Each call takes the place to write at and answers the place after.
ghost use Rattle.std.specs.Prelude.{[], ◌∷◌, ◌+◌, ◌^◌, ◌≤◌, ◌<◌, length};
ghost use Rattle.language.specs.Integers.{digits_in, most_digits, decimal, most_hex_digits, hexadecimal};
ghost use Rattle.language.specs.Tables.{word_limit};
ghost use Rattle.language.specs.Canonical.{spell_digits};
ghost use Rattle.wide.specs.Wide.{value_of};
ghost use Rattle.writer.specs.Writing.{Writes};

use wide::{Base, Decimal, Hexadecimal, Wide};

pub fn put(b: u8, text: &mut [u8], at: usize) -> usize
    requires { at + 1 < word_limit }
    ensures { Writes text.old at (b ∷ []) result text.new }
{
    table::put_byte(text, at, b);
    at + 1
}

pub fn copy(bytes: &[u8], text: &mut [u8], at: usize) -> usize
    requires { at + length bytes.now < word_limit }
    ensures { Writes text.old at bytes.now result text.new }
{
    for (i, b) in bytes.iter().enumerate() {
        table::put_byte(text, at + i, *b);
    }
    at + bytes.len()
}

// The digits of a number in a base, in lower case, with no leading zeros and nothing before them.
fn number<B: Base, const N: usize>(v: Wide, text: &mut [u8], at: usize) -> usize
    requires some { 0 < N }
    requires fits { value_of v < B.BASE ^ N }
    requires lies { N < 9223372036854775808 }
    requires room { at + N < word_limit }
    ensures writes { Writes text.old at (spell_digits (digits_in B.BASE N (value_of v))) result text.new }
    ensures upper_bound { result ≤ at + N }
{
    let mut digits = [0u8; N];
    let start = v.digits::<B, N>(&mut digits);
    let all = &digits[..];
    copy(&all[start..], text, at)
}

// A number in decimal.
pub fn decimal(v: Wide, text: &mut [u8], at: usize) -> usize
    requires { at + most_digits < word_limit }
    ensures writes { Writes text.old at (spell_digits (decimal (value_of v))) result text.new }
    ensures upper_bound { result ≤ at + most_digits }
{
    number::<Decimal, { Wide::MOST_DIGITS }>(v, text, at)
}

// A number of one word in decimal.
pub fn decimal_word(n: u64, text: &mut [u8], at: usize) -> usize
    requires { at + most_digits < word_limit }
    ensures writes { Writes text.old at (spell_digits (decimal n)) result text.new }
    ensures upper_bound { result ≤ at + most_digits }
{
    decimal(Wide::from(n), text, at)
}

// A number in hexadecimal.
pub fn hexadecimal(v: Wide, text: &mut [u8], at: usize) -> usize
    requires { at + most_hex_digits < word_limit }
    ensures writes { Writes text.old at (spell_digits (hexadecimal (value_of v))) result text.new }
    ensures upper_bound { result ≤ at + most_hex_digits }
{
    number::<Hexadecimal, { Wide::MOST_HEX_DIGITS }>(v, text, at)
}
