// Tokens: the token itself, the numbers of its kinds, and the readers of a row.
ghost use Rattle.std.specs.Prelude.{◌≡◌, List, ℕ, ◌+◌, ◌*◌, ◌≤◌, length};
ghost use Rattle.language.specs.Tables.{token_width};
ghost use Rattle.language.specs.Tokens.{tokens, contents};
ghost use Rattle.language.specs.Numbers.{token_of};
ghost use Rattle.language.specs.Judgements.{name_at};
ghost use Rattle.rows.specs.Tokens.{tok_number, tok_value, tok_of, kind_at, tok_at, token_as, row_token, TokenTable};

use crate::layout::TokenRow;
use wide::Wide;

// The kinds, by their numbers, in the order of lex.rs.
#[derive(Clone, Copy)]
pub struct TokKind {}

impl TokKind {
    pub const EOF: u64 = 1;

    pub const LPAREN: u64 = 2;

    pub const RPAREN: u64 = 3;

    pub const DOT: u64 = 4;

    pub const DOUBLE_COLON: u64 = 5;

    pub const COLON: u64 = 6;

    pub const SEMI_COLON: u64 = 7;

    pub const EQUALS: u64 = 8;

    pub const COMMA: u64 = 9;

    pub const SLASH: u64 = 10;

    pub const IMPORT_KEYWORD: u64 = 11;

    pub const LET_KEYWORD: u64 = 12;

    pub const IDENTIFIER: u64 = 13;

    pub const BOOLEAN_LITERAL: u64 = 14;

    pub const IPV4_LITERAL: u64 = 15;

    pub const STRING_LITERAL: u64 = 16;

    pub const HEX_LITERAL: u64 = 17;

    pub const DEC_LITERAL: u64 = 18;
}

// A token: lex.rs `Tok`. A name's bytes are not kept: they are its span. A `StringLiteral` has the number of its bodies. The
// lexer makes `Eof` and `StringLiteral`; every other token is one lexeme.
#[derive(Clone, Copy)]
pub enum Tok {
    Eof,
    LParen,
    RParen,
    Dot,
    DoubleColon,
    Colon,
    SemiColon,
    Equals,
    Comma,
    Slash,
    ImportKeyword,
    LetKeyword,
    Identifier,
    BooleanLiteral(bool),
    IPv4Literal(u32),
    StringLiteral(u64),
    HexLiteral(Wide),
    DecLiteral(Wide),
}

impl Tok {
    // The number of its kind.
    pub fn kind(self) -> u64
        ensures { result ≡ tok_number self }
    {
        match self {
            Tok::Eof => TokKind::EOF,
            Tok::LParen => TokKind::LPAREN,
            Tok::RParen => TokKind::RPAREN,
            Tok::Dot => TokKind::DOT,
            Tok::DoubleColon => TokKind::DOUBLE_COLON,
            Tok::Colon => TokKind::COLON,
            Tok::SemiColon => TokKind::SEMI_COLON,
            Tok::Equals => TokKind::EQUALS,
            Tok::Comma => TokKind::COMMA,
            Tok::Slash => TokKind::SLASH,
            Tok::ImportKeyword => TokKind::IMPORT_KEYWORD,
            Tok::LetKeyword => TokKind::LET_KEYWORD,
            Tok::Identifier => TokKind::IDENTIFIER,
            Tok::BooleanLiteral(_) => TokKind::BOOLEAN_LITERAL,
            Tok::IPv4Literal(_) => TokKind::IPV4_LITERAL,
            Tok::StringLiteral(_) => TokKind::STRING_LITERAL,
            Tok::HexLiteral(_) => TokKind::HEX_LITERAL,
            Tok::DecLiteral(_) => TokKind::DEC_LITERAL,
        }
    }

    // The value that a literal carries.
    #[tactic(auto, unfolding(crate::specs::Tokens::tok_value))]
    pub fn value(self) -> Wide
        ensures { result ≡ tok_value self }
    {
        match self {
            Tok::BooleanLiteral(b) => Wide::from(b as u64),
            Tok::IPv4Literal(a) => Wide::from(a as u64),
            Tok::StringLiteral(n) => Wide::from(n),
            Tok::HexLiteral(v) => v,
            Tok::DecLiteral(v) => v,
            _ => Wide::default(),
        }
    }
}

// The token with a kind and the two words of its value. A kind that no token has is read as `Eof`.
#[tactic(auto, unfolding(crate::specs::Tokens::tok_of))]
fn tok_of(kind: u64, lo: u64, hi: u64) -> Tok
    ensures { result ≡ tok_of kind lo hi }
{
    match kind {
        TokKind::LPAREN => Tok::LParen,
        TokKind::RPAREN => Tok::RParen,
        TokKind::DOT => Tok::Dot,
        TokKind::DOUBLE_COLON => Tok::DoubleColon,
        TokKind::COLON => Tok::Colon,
        TokKind::SEMI_COLON => Tok::SemiColon,
        TokKind::EQUALS => Tok::Equals,
        TokKind::COMMA => Tok::Comma,
        TokKind::SLASH => Tok::Slash,
        TokKind::IMPORT_KEYWORD => Tok::ImportKeyword,
        TokKind::LET_KEYWORD => Tok::LetKeyword,
        TokKind::IDENTIFIER => Tok::Identifier,
        TokKind::BOOLEAN_LITERAL => Tok::BooleanLiteral(lo != 0),
        TokKind::IPV4_LITERAL => Tok::IPv4Literal((lo % 4294967296) as u32),
        TokKind::STRING_LITERAL => Tok::StringLiteral(lo),
        TokKind::HEX_LITERAL => Tok::HexLiteral(Wide { hi, lo }),
        TokKind::DEC_LITERAL => Tok::DecLiteral(Wide { hi, lo }),
        _ => Tok::Eof,
    }
}

// A row.
#[derive(Clone, Copy)]
pub struct Token {
    pub kind: u64,
    pub line: u64,
    pub column: u64,
    pub start: u64,
    pub end: u64,
    pub lo: u64,
    pub hi: u64,
}

// Row i.
pub fn token_row(toks: &[u64], i: usize) -> Token
    requires { token_width * i + token_width ≤ length toks.now }
    ensures { result ≡ row_token toks.now i }
{
    let at = TokenRow::WORDS * i;
    Token {
        kind: toks[at],
        line: toks[at + TokenRow::LINE],
        column: toks[at + TokenRow::COLUMN],
        start: toks[at + TokenRow::START],
        end: toks[at + TokenRow::END],
        lo: toks[at + TokenRow::LOW],
        hi: toks[at + TokenRow::HIGH],
    }
}

// The kind of the token in row `at`: `Eof` past the last row.
#[tactic(auto, unfolding(crate::specs::Tokens::kind_at))]
pub fn kind_at(toks: &[u64], at: usize) -> u64
    requires { at ≤ 4294967296 }
    ensures { result ≡ kind_at toks.now at }
{
    let i = TokenRow::WORDS * at;
    if i + TokenRow::WORDS <= toks.len() {
        return toks[i];
    }
    TokKind::EOF
}

// The token in row `at`: `Eof` past the last row.
#[tactic(auto, unfolding(crate::specs::Tokens::tok_at))]
pub fn tok_at(toks: &[u64], at: usize) -> Tok
    requires { at ≤ 4294967296 }
    ensures { result ≡ tok_at toks.now at }
{
    let i = TokenRow::WORDS * at;
    if i + TokenRow::WORDS <= toks.len() {
        return tok_of(toks[i], toks[i + TokenRow::LOW], toks[i + TokenRow::HIGH]);
    }
    Tok::Eof
}

// The token with an index: past the end it is the last, which is `Eof`.
pub fn token_at(toks: &[u64], t: u64) -> Token
    requires { token_width ≤ length toks.now }
    ensures { (s : List ℕ) → TokenTable s toks.now → result ≡ token_as (token_of s t) }
{
    let count = toks.len() / TokenRow::WORDS;
    let i = t as usize;
    if i < count {
        return token_row(toks, i);
    }
    token_row(toks, count - 1)
}

// The token two after the one with an index.
pub fn two_after(toks: &[u64], t: u64) -> Token
    requires { token_width ≤ length toks.now }
    ensures { (s : List ℕ) → TokenTable s toks.now → result ≡ token_as (token_of s (t + 2)) }
{
    let count = toks.len() / TokenRow::WORDS;
    if (t as usize) < count {
        return token_at(toks, t + 2);
    }
    token_at(toks, t)
}

// The bytes of a name's token; of any other none.
pub fn name_at(source: &[u8], tok: Token) -> &[u8]
    ensures { (t : ℕ) → tok ≡ token_as (token_of source.now t) → result.now ≡ name_at (contents (tokens source.now)) t }
{
    if tok.kind == TokKind::IDENTIFIER {
        return parts::part(source, tok.start as usize, tok.end as usize);
    }
    parts::part(source, 0, 0)
}
