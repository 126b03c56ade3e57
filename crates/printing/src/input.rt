// The sources of standard input, a line of hex each. They are decoded from one chunk after another, so a line may be
// longer than a chunk.
ghost use Rattle.std.specs.Prelude.{◌<◌, ◌≤◌, length, IfSome};

use crate::streams;

// What is not yet read of a chunk.
#[derive(Clone, Copy)]
pub struct Unread {
    pub at: usize,
    pub end: usize,
}

// What comes next on standard input.
#[derive(Clone, Copy)]
pub enum Line {
    // how many bytes the source has, and what is read after it
    Source(usize, Unread),
    // the mark of a further part, and what is read after it
    Part(Unread),
    End,
    // not hex
    Bad,
    // a read or a write failed, and this was said
    Failed,
}

// Why decoding stopped.
#[derive(Clone, Copy)]
enum Stop {
    // a newline
    Line,
    // the mark of a further part
    Part,
    // the chunk's end
    Chunk,
    // a byte that is no digit, or a digit with none to pair it
    Bad,
}

// Where decoding stands: at which byte of the chunk, at which byte of the source, and a byte whose lower digit is not yet
// read, if there is one.
#[derive(Clone, Copy)]
struct Decoded {
    at: usize,
    size: usize,
    upper: Option<u8>,
    stop: Stop,
}

// A hex digit's value.
pub fn digit(b: u8) -> Option<u8>
    ensures { IfSome result (λ d. d < 16) }
{
    match b {
        b'0'..=b'9' => Some(b - b'0'),
        b'a'..=b'f' => Some(b - b'a' + 10),
        b'A'..=b'F' => Some(b - b'A' + 10),
        _ => None,
    }
}

// A byte more of the source, unless there is no room for it. Answers how many it has.
fn keep(source: &mut [u8], size: usize, b: u8) -> usize {
    if size < source.len() {
        source[size] = b;
        return size + 1;
    }
    size
}

// Decodes the digits from `from` on.
fn decode(
    text: &[u8],
    from: usize,
    source: &mut [u8],
    mut size: usize,
    mut upper: Option<u8>,
) -> Decoded {
    for at in from..text.len() {
        let Some(d) = digit(text[at]) else {
            return Decoded {
                at: at + 1,
                size,
                upper,
                stop: stop_at(text[at], size, upper),
            };
        };
        match upper {
            Some(half) => {
                size = keep(source, size, half | d);
                upper = None;
            }
            None => upper = Some(d * 16),
        }
    }
    Decoded {
        at: text.len(),
        size,
        upper,
        stop: Stop::Chunk,
    }
}

// What a byte that is no digit comes to. The mark of a further part is one at the start of a line.
fn stop_at(b: u8, size: usize, upper: Option<u8>) -> Stop {
    match b {
        _ if upper.is_some() => Stop::Bad,
        b'\n' => Stop::Line,
        b'+' if size == 0 => Stop::Part,
        _ => Stop::Bad,
    }
}

// The first bytes of a text.
pub fn first(text: &[u8], size: usize) -> &[u8] {
    text.get(..size).unwrap_or(text)
}

// Moves what is not yet read to the chunk's start, and answers how many bytes that is.
fn moved(chunk: &mut [u8], unread: Unread) -> usize
    ensures { result ≤ length chunk.new }
{
    let end = unread.end.min(chunk.len());
    if end < unread.at {
        return 0;
    }
    chunk.copy_within(unread.at..end, 0);
    end - unread.at
}

// Reads until the chunk is full or the input ends, what is not yet read being the first of it. Answers how many bytes it has.
pub fn fill(rt: &(impl Input + Eprint), chunk: &mut [u8], unread: Unread) -> Option<usize> {
    let kept = moved(chunk, unread);
    streams::read_full(rt, chunk, kept)
}

// What the end of the input comes to: a last line may lack its newline.
fn last(size: usize, upper: Option<u8>) -> Line {
    if upper.is_some() {
        return Line::Bad;
    }
    if size == 0 {
        return Line::End;
    }
    Line::Source(size, Unread { at: 0, end: 0 })
}

// Reads the next source.
pub fn next(
    rt: &(impl Input + Eprint),
    chunk: &mut [u8],
    unread: Unread,
    source: &mut [u8],
) -> Line {
    let mut at = unread.at;
    let mut end = unread.end;
    let mut size = 0;
    let mut upper = None;
    // nothing says that the input ends, so the chunks are counted
    for _ in 0u64..1000000000000 {
        let d = decode(first(chunk, end), at, source, size, upper);
        match d.stop {
            Stop::Line => {
                return Line::Source(d.size, Unread { at: d.at, end: end });
            }
            Stop::Part => {
                return Line::Part(Unread { at: d.at, end: end });
            }
            Stop::Bad => {
                return Line::Bad;
            }
            Stop::Chunk => {}
        }
        size = d.size;
        upper = d.upper;
        at = 0;
        let Some(n) = streams::read_full(rt, chunk, 0) else {
            return Line::Failed;
        };
        end = n;
        if end == 0 {
            return last(size, upper);
        }
    }
    Line::Bad
}
