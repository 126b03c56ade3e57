// A source with its tokens: the bytes, and the rows that lexing left of them.
ghost use Rattle.std.specs.Prelude.{◌≡◌, List, ℕ, ◌+◌, ◌*◌, ◌<◌, length};
ghost use Rattle.language.specs.Tables.{token_width, word_limit};
ghost use Rattle.language.specs.Tokens.{tokens, contents};
ghost use Rattle.language.specs.Numbers.{token_of};
ghost use Rattle.language.specs.Judgements.{name_at};
ghost use Rattle.rows.specs.Tokens.{token_as, TokenTable};

use crate::token::{Token, name_at, token_at, two_after};
use std::marker::Model;

// A clause sees the source alone, since the rows follow from it.
#[derive(Drop)]
pub struct Tokens<'a> {
    source: &'a [u8],
    rows: &'a [u64],
}

impl<'a> Model for Tokens<'a> {
    ghost Value = { List ℕ };

    ghost view = { λ t. t.source.now };

    // the rows are those of the source's tokens, and nothing more
    ghost invariant = { λ t. TokenTable t.source.now t.rows.now };
}

impl<'a> Tokens<'a> {
    pub fn new(source: &'a [u8], rows: &'a [u64]) -> Self
        requires { TokenTable source.now rows.now }
        ensures { result ≡ source.now }
    {
        Tokens { source, rows }
    }

    // The source itself.
    pub fn bytes(&self) -> &'a [u8]
        ensures { result.now ≡ self.now }
    {
        self.source
    }

    // The rows themselves.
    pub fn rows(&self) -> &'a [u64]
        ensures { TokenTable self.now result.now }
    {
        self.rows
    }

    // The token with an index: past the end it is the last, which is `Eof`.
    pub fn at(&self, t: u64) -> Token
        ensures { result ≡ token_as (token_of self.now t) }
    {
        token_at(self.rows, t)
    }

    // The token two after the one with an index.
    pub fn two_after(&self, t: u64) -> Token
        ensures value { result ≡ token_as (token_of self.now (t + 2)) }
        ensures few { token_width * length (tokens self.now) < word_limit }
    {
        two_after(self.rows, t)
    }

    // The bytes of a name's token; of any other none.
    pub fn name(&self, tok: Token) -> &'a [u8]
        ensures { (t : ℕ) → tok ≡ token_as (token_of self.now t) → result.now ≡ name_at (contents (tokens self.now)) t }
    {
        name_at(self.source, tok)
    }
}
