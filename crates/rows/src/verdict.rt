// What a call came to.
ghost use Rattle.std.specs.Prelude.{◌≡◌};

// Its number, which kind of it, where, and the character of an `UnexpectedChar`. All zero: done.
#[repr(C)]
#[derive(Clone, Copy)]
pub struct Verdict {
    pub number: u64,
    pub kind: u64,
    pub line: u64,
    pub column: u64,
    pub character: u64,
}

impl Verdict {
    // The numbers, in the order of 01's table; docs/TABLES.md says when each is given.
    pub const DONE: u64 = 0;

    pub const TOO_LONG: u64 = 1;

    pub const NOT_UTF8: u64 = 2;

    pub const LEXICAL: u64 = 3;

    pub const TOKEN_ROOM: u64 = 4;

    pub const SYNTAX: u64 = 5;

    pub const NODE_ROOM: u64 = 6;

    pub const TOO_DEEP: u64 = 7;

    pub const CALLS: u64 = 8;

    pub const NAMES: u64 = 9;

    pub const TEXT_ROOM: u64 = 10;

    pub const STATEMENT_ROOM: u64 = 11;

    // The kinds of `SYNTAX`, which are those of parse.rs `ParseErrorKind`. The kinds of `LEXICAL` are of `LexErrorKind`.
    pub const UNEXPECTED_TOKEN: u64 = 1;

    pub const INT_OUT_OF_RANGE: u64 = 2;

    // A number with a place, and no more.
    pub fn new(number: u64, line: u64, column: u64) -> Self
        ensures { result ≡ record { number = number; kind = 0; line = line; column = column; character = 0 } }
    {
        Self {
            number: number,
            kind: 0,
            line: line,
            column: column,
            character: 0,
        }
    }
}
