#![tactic(auto)]
// Characters, and runs of them: where the longest run of one kind ends. These are the tests of characters and the loops of
// lex.rs `Scanner`; the definitions are `Lexemes` of the crate `language`.
ghost use Rattle.std.specs.Prelude.{◌≡◌, ◌==◌, ◌+◌, ◌≤◌, length, get_or};
ghost use Rattle.std.specs.List.{list_all, zip};
ghost use Rattle.language.specs.Lexemes.{is_blank, is_digit, is_word_start, is_word, is_body, not_newline};
ghost use Rattle.classes.specs.Runs.{run_end};
ghost use Rattle.runs.specs.Runs.{blank_end, spelled};

use classes::Class;

// ---- characters

// White space, but not byte 10.
#[tactic(auto, unfolding(language::specs::Lexemes::is_blank))]
pub fn is_space(c: u32) -> bool
    ensures { result ≡ is_blank c }
{
    match c {
        0x09 | 0x0B..=0x0D | 0x20 | 0x85 | 0xA0 | 0x1680 => true,
        0x2000..=0x200A | 0x2028..=0x2029 | 0x202F | 0x205F | 0x3000 => true,
        _ => false,
    }
}

#[tactic(auto, unfolding(language::specs::Lexemes::is_digit))]
pub fn is_digit(b: u8) -> bool
    ensures { result ≡ is_digit b }
{
    b.is_ascii_digit()
}

#[tactic(auto, unfolding(language::specs::Lexemes::is_word_start))]
pub fn is_word_start(b: u8) -> bool
    ensures { result ≡ is_word_start b }
{
    b.is_ascii_alphabetic() | (b == b'_')
}

// The byte at a place, 0 past the end.
pub fn peek(line: &[u8], at: usize) -> u8
    ensures { result ≡ get_or line.now at 0 }
{
    line.get(at).copied().unwrap_or(0)
}

// ---- runs: the end of the longest run of bytes of one kind

struct Digit {}

impl Class for Digit {
    ghost member = { is_digit };

    fn has(b: u8) -> bool {
        is_digit(b)
    }
}

struct WordByte {}

impl Class for WordByte {
    ghost member = { is_word };

    #[tactic(auto, unfolding(language::specs::Lexemes::is_word))]
    fn has(b: u8) -> bool {
        is_word_start(b) | is_digit(b)
    }
}

struct BodyByte {}

impl Class for BodyByte {
    ghost member = { is_body };

    #[tactic(auto, unfolding(language::specs::Lexemes::is_body))]
    fn has(b: u8) -> bool {
        (b != b'"') & (b != b'\n')
    }
}

struct CommentByte {}

impl Class for CommentByte {
    ghost member = { not_newline };

    #[tactic(auto, unfolding(language::specs::Lexemes::not_newline))]
    fn has(b: u8) -> bool {
        b != b'\n'
    }
}

pub fn eat_digits(line: &[u8], at: usize) -> usize
    requires { at ≤ length line.now }
    ensures { result ≡ run_end is_digit line.now at }
{
    classes::run_end::<Digit>(line, at)
}

pub fn eat_word(line: &[u8], at: usize) -> usize
    requires { at ≤ length line.now }
    ensures { result ≡ run_end is_word line.now at }
{
    classes::run_end::<WordByte>(line, at)
}

pub fn eat_body(line: &[u8], at: usize) -> usize
    requires { at ≤ length line.now }
    ensures { result ≡ run_end is_body line.now at }
{
    classes::long_run_end::<BodyByte, 8>(line, at)
}

// The end of a comment, and of a line: before byte 10 or where the bytes end.
pub fn eat_comment(line: &[u8], at: usize) -> usize
    requires { at ≤ length line.now }
    ensures { result ≡ run_end not_newline line.now at }
{
    classes::long_run_end::<CommentByte, 16>(line, at)
}

// The end of the longest run of blank characters.
pub fn eat_spaces(line: &[u8], at: usize) -> usize
    requires { at ≤ length line.now }
    ensures { result ≡ blank_end line.now at }
{
    let mut i = at;
    while i < line.len() {
        // most blanks are this one
        if line[i] == b' ' {
            i += 1;
            continue;
        }
        let Some(here) = utf8::decode(line, i) else {
            return i;
        };
        if !is_space(here.number) {
            return i;
        }
        i = here.next;
    }
    i
}

// ---- words

// Whether two slices have the same bytes, as far as the shorter one goes.
fn all_same(word: &[u8], key: &[u8]) -> bool
    ensures { result ≡ list_all (λ pair. pair.0 == pair.1) (zip word.now key.now) }
{
    word.iter().zip(key).all(|(b, k)| b == k)
}

// Whether a word is `key`. Here `==` of the two slices is a call, and slower.
pub fn is_key(line: &[u8], at: usize, end: usize, key: &[u8]) -> bool
    requires { (at ≤ end) × (end ≤ length line.now) }
    ensures { result ≡ spelled line.now at end key.now }
{
    let word = &line[at..end];
    word.len() == key.len() && all_same(word, key)
}
