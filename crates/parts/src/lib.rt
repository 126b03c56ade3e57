#![tactic(auto)]
// Parts of a slice, and comparing bytes.
ghost use Rattle.std.specs.Prelude.{◌≡◌};
ghost use Rattle.language.specs.Lexemes.{same};
ghost use Rattle.language.specs.Tokens.{between};

// The bytes a..e of a text, as far as it has them.
pub fn part(s: &[u8], a: usize, e: usize) -> &[u8]
    ensures { result.now ≡ between s.now a e }
{
    s.get(a..e.min(s.len())).unwrap_or(&s[..0])
}

// Whether two texts are the same bytes.
pub fn same(x: &[u8], y: &[u8]) -> bool
    ensures { result ≡ same x.now y.now }
{
    x == y
}
