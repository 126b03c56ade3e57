// Text for standard output, gathered in a buffer. A buffer that is full is written. Once a write has failed, nothing more is
// gathered or written, so that it is said once.
ghost use Rattle.std.specs.Prelude.{◌≡◌, Some};
ghost use Rattle.std.specs.Option.{is_none};

use crate::{streams, words};
use wide::{Wide, spell_digit};

#[derive(Drop)]
pub struct Output<'r, 'b, R> {
    rt: &'r R,
    buffer: &'b mut [u8],
    // where text goes next, while no write has failed
    at: Option<usize>,
}

impl<'r, 'b, R: Print + Eprint> Output<'r, 'b, R> {
    pub fn new(rt: &'r R, buffer: &'b mut [u8]) -> Output<'r, 'b, R>
        ensures { result.at ≡ Some 0 }
    {
        Output {
            rt,
            buffer,
            at: Some(0),
        }
    }

    // Whether a write has failed.
    pub fn failed(&self) -> bool
        ensures { result ≡ is_none self.now.at }
    {
        self.at.is_none()
    }

    pub fn byte(&mut self, b: u8) {
        let Some(at) = self.at else {
            return;
        };
        if at < self.buffer.len() {
            self.buffer[at] = b;
            self.at = Some(at + 1);
            return;
        }
        if !streams::write_all(self.rt, self.buffer) {
            self.at = None;
            return;
        }
        if let Some(first) = self.buffer.first_mut() {
            *first = b;
        }
        self.at = Some(1);
    }

    pub fn text(&mut self, s: &[u8]) {
        for b in s {
            self.byte(*b);
        }
    }

    // Writes what is left in the buffer, which is empty then. Answers whether everything was written, also what was left before.
    pub fn flush(&mut self) -> bool {
        let Some(at) = self.at else {
            return false;
        };
        let rt = self.rt;
        let written = match self.buffer.get(..at) {
            Some(left) => streams::write_all(rt, left),
            None => false,
        };
        self.at = if written { Some(0) } else { None };
        written
    }

    // Says that the input is bad, and writes what is left.
    pub fn bad_input(&mut self) {
        self.text(b"bad input\n");
        self.flush();
    }

    // A number in decimal.
    pub fn wide(&mut self, n: Wide) {
        let mut digits = [0u8; Wide::MOST_DIGITS];
        let start = n.decimal(&mut digits);
        self.last_digits(&digits, start);
    }

    fn last_digits(&mut self, digits: &[u8; Wide::MOST_DIGITS], start: usize) {
        self.text(parts::part(digits, start, Wide::MOST_DIGITS));
    }

    pub fn number(&mut self, n: u64) {
        self.wide(Wide::from(n));
    }

    fn hex_byte(&mut self, b: u8) {
        self.byte(spell_digit((b / 16) as u64));
        self.byte(spell_digit((b % 16) as u64));
    }

    pub fn hex(&mut self, s: &[u8]) {
        for b in s {
            self.hex_byte(*b);
        }
    }

    // An IPv4 address, its four numbers with dots between.
    pub fn quad(&mut self, n: u64) {
        self.number(n / 16777216 % 256);
        self.dotted(n / 65536 % 256);
        self.dotted(n / 256 % 256);
        self.dotted(n % 256);
    }

    fn dotted(&mut self, n: u64) {
        self.byte(b'.');
        self.number(n);
    }

    // A blank and a number.
    pub fn field(&mut self, n: u64) {
        self.byte(b' ');
        self.number(n);
    }

    // Two numbers, each with a blank after it.
    pub fn pair(&mut self, a: u64, b: u64) {
        self.number(a);
        self.field(b);
        self.byte(b' ');
    }

    // Word `n`, from 0 on, of a list of words with a blank between: nothing where there is none.
    pub fn word(&mut self, list: &[u8], n: u64) {
        self.text(words::word(list, n));
    }

    // `refused`, a number and a place.
    pub fn refused(&mut self, number: u64, line: u64, column: u64) {
        self.text(b"refused");
        self.field(number);
        self.field(line);
        self.field(column);
    }

    // The line that closes an answer.
    pub fn close(&mut self) {
        self.text(b"--\n");
    }
}
