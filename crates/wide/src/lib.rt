#![tactic(auto)]
// Numbers from 0 to 2^127 - 1 in two 64-bit words: what `i128` is in the Rust.
ghost use Rattle.std.specs.Prelude.{◌≡◌, ℕ, ◌+◌, ◌-◌, ◌*◌, ◌/◌, ◌%◌, ◌^◌, ◌<◌, ◌≤◌, ◌++◌, length, replicate, ◌==◌};
ghost use Rattle.std.proofs.Common.{lit≤};
ghost use Rattle.language.specs.Integers.{smallest, digits_in, most_digits, decimal, most_hex_digits, hexadecimal, ascii};
ghost use Rattle.language.specs.Canonical.{spell_digit, spell_digits};
ghost use Rattle.wide.specs.Wide.{value_of, word, scaled, size_of};

#[derive(Clone, Copy, Default)]
pub struct Wide {
    pub hi: u64,
    pub lo: u64,
}

impl From<u64> for Wide {
    ghost from_gives = { λ n w. w ≡ word n };

    #[inline]
    fn from(lo: u64) -> Wide {
        Wide { hi: 0, lo }
    }
}

// A type that holds numbers of one word.
#[derive(Clone, Copy)]
pub enum Size {
    U8,
    U16,
    U32,
    U64,
}

// A number divided by a base, and the digit that is left.
#[derive(Clone, Copy)]
pub struct Quotient {
    pub rest: Wide,
    pub digit: u64,
}

impl Wide {
    // How many decimal digits a number has at the most: `most_digits`, or `decimal` would not be proved.
    pub const MOST_DIGITS: usize = 39;

    // How many hexadecimal digits: `most_hex_digits`.
    pub const MOST_HEX_DIGITS: usize = 32;

    // Twice the number. The highest bit of the lower word goes to the upper word.
    fn times2(self) -> Wide
        requires { self.hi < 1152921504606846976 }
        ensures { (value_of result ≡ value_of self * 2) × (result.hi < 2305843009213693952) }
    {
        let hi = self.hi;
        let lo = self.lo;
        Wide {
            hi: hi * 2 + lo / 9223372036854775808,
            lo: (lo % 9223372036854775808) * 2,
        }
    }

    // Eight times the number. The highest three bits of the lower word go to the upper word.
    fn times8(self) -> Wide
        requires { self.hi < 1152921504606846976 }
        ensures { (value_of result ≡ value_of self * 8) × (result.hi < 9223372036854775808) }
    {
        let hi = self.hi;
        let lo = self.lo;
        Wide {
            hi: hi * 8 + lo / 2305843009213693952,
            lo: (lo % 2305843009213693952) * 8,
        }
    }

    // The sum of two numbers below 2^127. The lower words carry where what is left of their sum is less than either.
    fn plus(self, other: Wide) -> Wide
        requires { (self.hi < 9223372036854775808) × (other.hi < 9223372036854775808) }
        ensures { (value_of result ≡ value_of self + value_of other) × (result.hi ≤ self.hi + other.hi + 1) }
    {
        let hi = self.hi + other.hi;
        let lo = std::num::wrapping_add_u64(self.lo, other.lo);
        if lo < other.lo {
            return Wide { hi: hi + 1, lo: lo };
        }
        Wide { hi: hi, lo: lo }
    }

    // Ten times the number, plus a digit: two shifted copies, eight times the number and twice the number, and no product. Of a
    // plain sum of both a compiler makes a product again, for which a machine without one of 64 bits calls a helper. So the lesser
    // copy is compared too, here with a bound and in `plus` with the sum: the copies stay apart (`tests/c/multiply`).
    pub fn times10_plus(self, d: u64) -> Option<Wide>
        requires { d < 10 }
        ensures { result ≡ scaled 10 (value_of self) d }
    {
        let hi = self.hi;
        let lo = self.lo;
        // most numbers are small: the lower word is enough
        let twice = std::num::wrapping_add_u64(std::num::wrapping_add_u64(lo, lo), d);
        if (hi == 0) & ((lo < 2305843009213693952) & (twice < 2305843009213693952)) {
            return Some(Wide::from(lo * 8 + twice));
        }
        // from 2^60 in the upper word on the answer is known; below it both copies and their sum fit two words
        if 1152921504606846975 < hi {
            return None;
        }
        let lesser = self.times2().plus(Wide::from(d));
        let all = self.times8().plus(lesser);
        // 2^63 in the upper word is 2^127
        if all.hi < 9223372036854775808 {
            return Some(all);
        }
        None
    }

    // Sixteen times the number, plus a digit.
    pub fn times16_plus(self, d: u64) -> Option<Wide>
        requires { d < 16 }
        ensures { result ≡ scaled 16 (value_of self) d }
    {
        let hi = self.hi;
        let lo = self.lo;
        // from 2^63 / 16 on the answer is known; below it a digit more always fits
        if 576460752303423487 < hi {
            return None;
        }
        // the upper four bits of `lo` go to the upper word
        Some(Wide {
            hi: hi * 16 + lo / 1152921504606846976,
            lo: (lo % 1152921504606846976) * 16 + d,
        })
    }

    // The smallest type that holds the number, if one does.
    pub fn smallest(self) -> Option<Size>
        ensures { result ≡ size_of (smallest (value_of self)) }
    {
        let hi = self.hi;
        let lo = self.lo;
        if 0 < hi {
            return None;
        }
        if lo < 256 {
            return Some(Size::U8);
        }
        if lo < 65536 {
            return Some(Size::U16);
        }
        if lo < 4294967296 {
            return Some(Size::U32);
        }
        Some(Size::U64)
    }

    // A long division: the upper word, then the halves of the lower, each with what is left of the part before it,
    // so that no part needs more than 64 bits.
    fn div10(self) -> Quotient
        ensures { (value_of result.rest ≡ value_of self / 10) × (result.digit ≡ value_of self % 10) }
    {
        let hi = self.hi;
        let lo = self.lo;
        // most numbers are small: the lower word is enough
        if hi == 0 {
            let tenth = lo / 10;
            return Quotient {
                rest: Wide::from(tenth),
                digit: last_digit(lo, tenth),
            };
        }
        let high = hi / 10;
        let p1 = last_digit(hi, high) * 4294967296 + lo / 4294967296;
        let middle = p1 / 10;
        let p0 = last_digit(p1, middle) * 4294967296 + lo % 4294967296;
        let low = p0 / 10;
        let rest = Wide {
            hi: high,
            lo: middle * 4294967296 + low,
        };
        Quotient {
            rest,
            digit: last_digit(p0, low),
        }
    }

    // The lowest four bits of the upper word go to the lower.
    fn div16(self) -> Quotient
        ensures { (value_of result.rest ≡ value_of self / 16) × (result.digit ≡ value_of self % 16) }
    {
        let hi = self.hi;
        let lo = self.lo;
        let rest = Wide {
            hi: hi / 16,
            lo: (hi % 16) * 1152921504606846976 + lo / 16,
        };
        Quotient {
            rest,
            digit: lo % 16,
        }
    }

    fn is_zero(self) -> bool
        ensures { result ≡ (value_of self == 0) }
    {
        (self.hi == 0) & (self.lo == 0)
    }

    // The digits in a base, at the end of the lent buffer; answers where they start. What is before them is zero.
    pub fn digits<B: Base, const N: usize>(self, text: &mut [u8; N]) -> usize
        requires { (0 < N) × (value_of self < B.BASE ^ N) }
        ensures value { result ≡ N - length (digits_in B.BASE N (value_of self)) }
        ensures text_after { text.new ≡ replicate result 0 ++ spell_digits (digits_in B.BASE N (value_of self)) }
    {
        text.fill(0);
        let mut rest = self;
        let mut at = N;
        // the last digit first; 0 has one too, so the test stands at the end
        loop {
            let q = B::divide(rest);
            at -= 1;
            text[at] = B::spell(q.digit);
            rest = q.rest;
            if rest.is_zero() {
                return at;
            }
        }
    }

    // The decimal digits, as `digits` writes them.
    pub fn decimal(self, text: &mut [u8; Wide::MOST_DIGITS]) -> usize
        ensures value { result ≡ most_digits - length (decimal (value_of self)) }
        ensures text_after { text.new ≡ replicate result 0 ++ ascii (decimal (value_of self)) }
    {
        self.digits::<Decimal, { Wide::MOST_DIGITS }>(text)
    }

    // The hexadecimal digits, in lower case.
    pub fn hexadecimal(self, text: &mut [u8; Wide::MOST_HEX_DIGITS]) -> usize
        ensures value { result ≡ most_hex_digits - length (hexadecimal (value_of self)) }
        ensures text_after { text.new ≡ replicate result 0 ++ spell_digits (hexadecimal (value_of self)) }
    {
        self.digits::<Hexadecimal, { Wide::MOST_HEX_DIGITS }>(text)
    }
}

// A base that numbers are read and written in.
pub trait Base {
    const BASE: u64;

    ghost BASE: { ℕ };

    // A number with a digit more, where that is below 2^127.
    fn push(v: Wide, d: u64) -> Option<Wide>
        requires { d < BASE }
        ensures { result ≡ scaled BASE (value_of v) d };

    // A number divided by the base, and the digit that is left.
    fn divide(v: Wide) -> Quotient
        ensures { (value_of result.rest ≡ value_of v / BASE) × (result.digit ≡ value_of v % BASE) };

    // A digit as ASCII.
    fn spell(d: u64) -> u8
        requires { d < BASE }
        ensures { result ≡ spell_digit d };

    ghost two: { 1 < BASE };
}

pub struct Decimal {}

impl Base for Decimal {
    const BASE: u64 = 10;

    ghost BASE = { 10 };

    ghost two = { lit≤ tt };

    fn push(v: Wide, d: u64) -> Option<Wide> {
        v.times10_plus(d)
    }

    fn divide(v: Wide) -> Quotient {
        v.div10()
    }

    // no test, which `spell_digit` has for hexadecimal digits
    fn spell(d: u64) -> u8 {
        ((48 + d) % 256) as u8
    }
}

pub struct Hexadecimal {}

impl Base for Hexadecimal {
    const BASE: u64 = 16;

    ghost BASE = { 16 };

    ghost two = { lit≤ tt };

    fn push(v: Wide, d: u64) -> Option<Wide> {
        v.times16_plus(d)
    }

    fn divide(v: Wide) -> Quotient {
        v.div16()
    }

    fn spell(d: u64) -> u8 {
        spell_digit(d)
    }
}

// The last digit of a number, which is ten times `tenth` and that digit. With six times `tenth` more it is 16 times `tenth` and the
// digit, so its lowest four bits are the digit. Of the remainder by ten a compiler makes a product, where it has divided already.
fn last_digit(n: u64, tenth: u64) -> u64
    requires { tenth ≡ n / 10 }
    ensures { result ≡ n % 10 }
{
    let low = (n % 16) as u8;
    let more = (tenth % 16) as u8;
    ((low + more * 6) % 16) as u64
}

// A digit below 16 as ASCII.
pub fn spell_digit(d: u64) -> u8
    requires { d < 16 }
    ensures { result ≡ spell_digit d }
{
    if d < 10 {
        return ((48 + d) % 256) as u8;
    }
    ((87 + d) % 256) as u8
}
