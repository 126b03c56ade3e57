// Standard input and standard output, for programs that take no arguments. A read that fails is never taken for the end of the
// input, nor a write that fails for one that was made: what failed is said at once, in a line on standard error.
ghost use Rattle.std.specs.Prelude.{◌≤◌, length, IfOk};

use std::env::{Env, FillError};
use std::io;
use std::io::{Error, ErrorKind};

// Whether the program was given no arguments. Where it was given some, it says that it takes none: what they name is not read.
pub fn no_arguments(rt: &(impl Env + Eprint)) -> bool {
    if let Err(FillError::NotPresent) = rt.arg(1, &mut []) {
        return true;
    }
    let _ = eprintln!(rt;
        "arguments were given, but only standard input is read: nothing was done"
    );
    false
}

// One read, made again where a signal interrupts it.
fn read_once<R: io::Read>(reader: &mut R, buf: &mut [u8]) -> io::Result<usize>
    ensures { IfOk result (λ n. n ≤ length buf.new) }
{
    // nothing says that the signals end, so the turns are counted
    for _ in 0u64..1000000000000 {
        match reader.read(buf) {
            Ok(got) => return Ok(got),
            Err(e) => {
                if e.kind() != ErrorKind::Interrupted {
                    return Err(e);
                }
            }
        }
    }
    Err(Error::from(ErrorKind::Interrupted))
}

fn read_failed(rt: &impl Eprint, why: Error) -> Option<usize> {
    let _ = eprintln!(rt; "cannot read standard input: {why}");
    None
}

// Reads into the buffer from place `from` on, until it is full or the input ends. Answers how many bytes the buffer has: nothing
// where a read failed, and then this was said.
pub fn read_full(rt: &(impl Input + Eprint), buf: &mut [u8], from: usize) -> Option<usize> {
    let mut reader = rt.reader();
    let mut end = from;
    // no `for`: a read says how far it went
    while end < buf.len() {
        match read_once(&mut reader, &mut buf[end..]) {
            Ok(0) => return Some(end),
            Ok(n) => end += n,
            Err(why) => return read_failed(rt, why),
        }
    }
    Some(end)
}

// One write, made again where a signal interrupts it.
fn write_once(rt: &impl Print, text: &[u8]) -> io::Result<usize>
    ensures { IfOk result (λ n. n ≤ length text.now) }
{
    // nothing says that the signals end, so the turns are counted
    for _ in 0u64..1000000000000 {
        match rt.write_some(text) {
            Ok(put) => return Ok(put),
            Err(e) => {
                if e.kind() != ErrorKind::Interrupted {
                    return Err(e);
                }
            }
        }
    }
    Err(Error::from(ErrorKind::Interrupted))
}

fn write_failed(rt: &impl Eprint, why: Error) -> bool {
    let _ = eprintln!(rt; "cannot write standard output: {why}");
    false
}

// Writes a text, and answers whether all of it was written.
pub fn write_all(rt: &(impl Print + Eprint), text: &[u8]) -> bool {
    let mut done = 0;
    // no `for`: a write says how far it went
    while done < text.len() {
        match write_once(rt, &text[done..]) {
            Ok(0) => return write_failed(rt, Error::from(ErrorKind::WriteZero)),
            Ok(n) => done += n,
            Err(why) => return write_failed(rt, why),
        }
    }
    true
}
