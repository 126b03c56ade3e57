// Tokens and lexical errors, by the numbers that tables hold for them.
use crate::output::Output;
use lexemes::LexErrorKind;
use parts::part;
use rows::{TokKind, Token, TokenRow};
use wide::Wide;

// Row `i`: all zeros where the table has none.
pub fn row_at(tokens: &[u64], i: usize) -> Token {
    if i < tokens.len() / TokenRow::WORDS {
        return rows::token_row(tokens, i);
    }
    Token {
        kind: 0,
        line: 0,
        column: 0,
        start: 0,
        end: 0,
        lo: 0,
        hi: 0,
    }
}

// The name of a kind of token.
fn name(out: &mut Output<impl Print + Eprint>, kind: u64) {
    let names = b"\
        - Eof LParen RParen Dot DoubleColon Colon SemiColon Equals Comma Slash ImportKeyword LetKeyword Identifier \
        BooleanLiteral IPv4Literal StringLiteral HexLiteral DecLiteral";
    out.word(names, kind);
}

// The name of a kind of error.
fn error_name(out: &mut Output<impl Print + Eprint>, kind: u64) {
    let names = b"\
        - UnexpectedChar UnterminatedString IntOutOfRange IntLeadingZero IntInvalidSuffix IPv4Literal";
    out.word(names, kind);
}

pub fn boolean(out: &mut Output<impl Print + Eprint>, n: u64) {
    if n == 0 {
        out.text(b"false");
    } else {
        out.text(b"true");
    }
}

// The value that a token carries. A string's is not shown here.
pub fn show_value(out: &mut Output<impl Print + Eprint>, source: &[u8], token: Token) {
    let value = Wide {
        hi: token.hi,
        lo: token.lo,
    };
    let kind = token.kind;
    match kind {
        TokKind::IDENTIFIER => out.text(part(source, token.start as usize, token.end as usize)),
        TokKind::BOOLEAN_LITERAL => boolean(out, value.lo),
        TokKind::IPV4_LITERAL => out.quad(value.lo),
        TokKind::HEX_LITERAL | TokKind::DEC_LITERAL => out.wide(value),
        _ => {}
    }
}

// The name of a token, and its value unless it is a string.
pub fn show(out: &mut Output<impl Print + Eprint>, source: &[u8], token: Token) {
    name(out, token.kind);
    if token.kind < TokKind::IDENTIFIER || token.kind == TokKind::STRING_LITERAL {
        return;
    }
    out.byte(b' ');
    show_value(out, source, token);
}

// The bodies of a string in hex, a blank before each.
pub fn bodies(out: &mut Output<impl Print + Eprint>, source: &[u8], t: Token) {
    let start = t.start as usize;
    let end = t.end as usize;
    for i in 0..t.lo {
        out.text(b" x");
        out.hex(lex::string_body(source, start, end, i));
    }
}

// The name of an error, and the character for one that was not expected.
pub fn show_error(out: &mut Output<impl Print + Eprint>, kind: u64, character: u64) {
    error_name(out, kind);
    if kind == LexErrorKind::UNEXPECTED_CHAR {
        out.field(character);
    }
}
