// The first line of the input: a mode, and the room of each table that it lends.
ghost use Rattle.std.specs.Prelude.{◌≤◌, length};

use crate::words::find;

#[derive(Clone, Copy)]
pub enum Mode {
    // rows
    Scan,
    // rows
    Lex,
    // rows of tokens, and bytes of text
    Canon,
    // rows of tokens, and rows of nodes
    Parse,
    // rows of tokens, nodes, diagnostics and statements
    Check,
    // the same
    Grouped,
}

impl Mode {
    // The mode with a name.
    fn named(name: &[u8]) -> Option<Mode> {
        match name {
            b"scan" => Some(Mode::Scan),
            b"lex" => Some(Mode::Lex),
            b"canon" => Some(Mode::Canon),
            b"parse" => Some(Mode::Parse),
            b"check" => Some(Mode::Check),
            b"grouped" => Some(Mode::Grouped),
            _ => None,
        }
    }

    // How many tables it lends.
    fn tables(self) -> usize {
        match self {
            Mode::Scan | Mode::Lex => 1,
            Mode::Canon | Mode::Parse => 2,
            Mode::Check | Mode::Grouped => 4,
        }
    }
}

// The numbers of the line, in their order, and how many there are.
#[derive(Clone, Copy)]
struct Rooms {
    numbers: [u64; 4],
    count: usize,
}

// The mode, a number for each table that it lends, and where the line after the first one starts.
#[derive(Clone, Copy)]
pub struct Header {
    pub mode: Mode,
    pub numbers: [u64; 4],
    pub next: usize,
}

// A number in decimal. A room that no array here reaches counts as 1000000.
fn number_of(text: &[u8]) -> Option<u64> {
    if text.is_empty() {
        return None;
    }
    let mut n: u64 = 0;
    for b in text {
        let d = match *b {
            b'0'..=b'9' => *b - b'0',
            _ => return None,
        };
        n = (n * 10 + d as u64).min(1000000);
    }
    Some(n)
}

// The numbers from `from` on, each after a blank.
fn rooms_of(line: &[u8], from: usize) -> Option<Rooms>
    requires { from ≤ length line.now }
{
    let mut numbers = [0u64; 4];
    let mut count: usize = 0;
    let mut at = from;
    // no `for`: a number ends where the next blank is
    while at < line.len() {
        let start = at + 1;
        let end = find(line, start, b' ');
        let n = number_of(&line[start..end])?;
        if 3 < count {
            return None;
        }
        numbers[count] = n;
        count += 1;
        at = end;
    }
    Some(Rooms { numbers, count })
}

// The first line of a text: nothing where it is not understood, or has not as many numbers as its mode has tables.
pub fn read(text: &[u8]) -> Option<Header> {
    let stop = find(text, 0, b'\n');
    if text.len() <= stop {
        return None;
    }
    let line = &text[..stop];
    let end = find(line, 0, b' ');
    let rooms = rooms_of(line, end)?;
    let mode = Mode::named(&line[..end])?;
    if rooms.count != mode.tables() {
        return None;
    }
    let numbers = rooms.numbers;
    Some(Header {
        mode,
        numbers,
        next: stop + 1,
    })
}
