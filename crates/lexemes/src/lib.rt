#![tactic(auto)]
// Lexemes: what the scanner finds at one place of a line, and the words of a lexeme's row. Ports lex.rs `Lexeme`, `LexemeKind`
// and `LexErrorKind`; the definitions are `Lexemes` and `Tables` of the crate `language`.
ghost use Rattle.std.specs.Prelude.{◌≡◌};
ghost use Rattle.lexemes.specs.Kinds.{error_number, error_char, class_number, kind_number, kind_value, read_kind, row_of};

use rows::{LexemeRow, Tok};
use wide::Wide;

// Why a lexeme is none of the language's.
#[derive(Clone, Copy)]
pub enum LexErrorKind {
    // The character begins nothing. A whole word has its number, so that an error lies in memory as a token does:
    // else both are read by one load that is wider than what was stored, and such a load waits for the stores.
    UnexpectedChar(u64),
    // The line ends inside a string.
    UnterminatedString,
    // Its value is 2^127 or more.
    IntOutOfRange,
    // It is decimal and begins with `0`, but is not `0`.
    IntLeadingZero,
    // A byte of it is no digit of its base.
    IntInvalidSuffix,
    IPv4Literal,
}

impl LexErrorKind {
    // The numbers of the kinds, in the order of lex.rs without its `StringLiteral`.
    pub const UNEXPECTED_CHAR: u64 = 1;

    pub const UNTERMINATED_STRING: u64 = 2;

    pub const INT_OUT_OF_RANGE: u64 = 3;

    pub const INT_LEADING_ZERO: u64 = 4;

    pub const INT_INVALID_SUFFIX: u64 = 5;

    pub const IPV4_LITERAL: u64 = 6;

    // The number of its kind.
    pub fn kind(self) -> u64
        ensures { result ≡ error_number self }
    {
        match self {
            LexErrorKind::UnexpectedChar(_) => LexErrorKind::UNEXPECTED_CHAR,
            LexErrorKind::UnterminatedString => LexErrorKind::UNTERMINATED_STRING,
            LexErrorKind::IntOutOfRange => LexErrorKind::INT_OUT_OF_RANGE,
            LexErrorKind::IntLeadingZero => LexErrorKind::INT_LEADING_ZERO,
            LexErrorKind::IntInvalidSuffix => LexErrorKind::INT_INVALID_SUFFIX,
            LexErrorKind::IPv4Literal => LexErrorKind::IPV4_LITERAL,
        }
    }

    // The character of an `UnexpectedChar`.
    pub fn character(self) -> u64
        ensures { result ≡ error_char self }
    {
        if let LexErrorKind::UnexpectedChar(c) = self {
            return c;
        }
        0
    }
}

// What a lexeme is.
#[derive(Clone, Copy)]
pub enum LexemeKind {
    // White space or a comment.
    Trivia,
    // A string literal, its body between the quotes.
    Str,
    Tok(Tok),
    Error(LexErrorKind),
}

impl LexemeKind {
    // The numbers of the classes.
    pub const TRIVIA: u64 = 1;

    pub const STR: u64 = 2;

    pub const TOK: u64 = 3;

    pub const ERROR: u64 = 4;
}

// What reading a token came to.
impl From<Result<Tok, LexErrorKind>> for LexemeKind {
    ghost from_gives = { λ r k. k ≡ read_kind r };

    fn from(r: Result<Tok, LexErrorKind>) -> LexemeKind {
        match r {
            Ok(t) => LexemeKind::Tok(t),
            Err(e) => LexemeKind::Error(e),
        }
    }
}

#[derive(Clone, Copy)]
pub struct Lexeme {
    pub start: usize,
    pub end: usize,
    pub kind: LexemeKind,
}

// The three words of a row that tell a kind. Their numbers are the rows' of the C interface (docs/TABLES.md), so `as` of an enum
// does not give them.
fn class_of(kind: LexemeKind) -> u64
    ensures { result ≡ class_number kind }
{
    match kind {
        LexemeKind::Trivia => LexemeKind::TRIVIA,
        LexemeKind::Str => LexemeKind::STR,
        LexemeKind::Tok(_) => LexemeKind::TOK,
        LexemeKind::Error(_) => LexemeKind::ERROR,
    }
}

fn kind_of(kind: LexemeKind) -> u64
    ensures { result ≡ kind_number kind }
{
    match kind {
        LexemeKind::Trivia | LexemeKind::Str => 0,
        LexemeKind::Tok(t) => t.kind(),
        LexemeKind::Error(e) => e.kind(),
    }
}

fn value_of(kind: LexemeKind) -> Wide
    ensures { result ≡ kind_value kind }
{
    match kind {
        LexemeKind::Trivia | LexemeKind::Str => Wide::default(),
        LexemeKind::Tok(t) => t.value(),
        LexemeKind::Error(e) => Wide::from(e.character()),
    }
}

// The words of a lexeme's row.
pub fn row_of(l: Lexeme) -> [u64; LexemeRow::WORDS]
    ensures { result ≡ row_of l }
{
    let kind = l.kind;
    let value = value_of(kind);
    [
        l.start as u64,
        l.end as u64,
        class_of(kind),
        kind_of(kind),
        value.lo,
        value.hi,
    ]
}
