#![tactic(auto)]
// Names: the tables of what is bound and imported, and the search of a name in one. Ports check.rs's `HashMap`s: a fixed number
// of entries, searched in order of binding.
//
// A table with room for so many names has their keys first, next to one another, so that a search compares several at once,
// and then seven words for each name.
ghost use Rattle.std.specs.Prelude.{◌≡◌, false, ℕ, ◌+◌, ◌*◌, ◌/◌, ◌<◌, ◌≤◌, length};
ghost use Rattle.language.specs.Lexemes.{same};
ghost use Rattle.names.specs.Names.{name_width, key_of, key_at, name_word, name_of, NoneOf, stored, Keyed, Others, names_in, Finds};

// A name and what it stands for: where it starts and ends in the source, its token, and a form and three words that say what it
// stands for. The form is 0 where the name's statement failed, and of an import, whose kind is the number of its module.
#[derive(Clone, Copy)]
pub struct Entry {
    pub key: u64,
    pub start: u64,
    pub end: u64,
    pub token: u64,
    pub form: u64,
    pub kind: u64,
    pub lo: u64,
    pub hi: u64,
}

impl Entry {
    // How many words a table has for each name it has room for: the key, and those that follow all keys.
    pub const WORDS: usize = 8;

    const AFTER_KEY: usize = 7;

    // The words after the key.
    pub const START: usize = 0;

    pub const END: usize = 1;

    pub const TOKEN: usize = 2;

    pub const FORM: usize = 3;

    pub const KIND: usize = 4;

    pub const LOW: usize = 5;

    pub const HIGH: usize = 6;

    // A key is turned by 5 bits before the next byte: what is below 2^58 goes up, what is above comes down. Both are shifts.
    const BELOW: u64 = 288230376151711744;

    const TURN: u64 = 32;
}

// Where a search stopped: the number of the entry, or how many there are where none has the name; and how many names it compared:
// one for each entry up to there, also where keys spared a look at the bytes.
#[derive(Clone, Copy)]
pub struct Found {
    pub at: usize,
    pub compared: usize,
}

// A hash of a name's bytes: two names with different keys are different names.
pub fn key_of(name: &[u8]) -> u64
    ensures { result ≡ key_of name.now }
{
    let mut key: u64 = 0;
    for b in name {
        key = (key % Entry::BELOW) * Entry::TURN + key / Entry::BELOW + *b as u64;
    }
    key
}

// Word j after the key of entry i.
pub fn word(names: &[u64], i: usize, j: usize) -> u64
    requires { (i < length names.now / name_width) × (j < 7) }
    ensures { result ≡ name_word names.now i j }
{
    names[names.len() / Entry::WORDS + Entry::AFTER_KEY * i + j]
}

// Stores an entry in a row that the table has room for.
pub fn put(names: &mut [u64], row: usize, e: Entry)
    requires { row < length names.old / name_width }
    ensures { names.new ≡ stored (length names.old / name_width) names.old row e }
{
    let at = names.len() / Entry::WORDS + Entry::AFTER_KEY * row;
    names[row] = e.key;
    names[at + Entry::START] = e.start;
    names[at + Entry::END] = e.end;
    names[at + Entry::TOKEN] = e.token;
    names[at + Entry::FORM] = e.form;
    names[at + Entry::KIND] = e.kind;
    names[at + Entry::LOW] = e.lo;
    names[at + Entry::HIGH] = e.hi;
}

// Whether entry i has a name. An entry with another key is passed without a look at its bytes.
fn is_named(source: &[u8], names: &[u64], i: usize, key: u64, name: &[u8]) -> bool
    requires { i < length names.now / name_width }
    ensures { key_at names.now i ≡ key_of (name_of source.now names.now i) → key ≡ key_of name.now
        → result ≡ same (name_of source.now names.now i) name.now }
{
    if names[i] != key {
        return false;
    }
    let a = word(names, i, Entry::START) as usize;
    let e = word(names, i, Entry::END) as usize;
    parts::same(parts::part(source, a, e), name)
}

// Whether one of eight keys from i on may be the wanted one. Eight tests in a row, with no way out between: they are made at once.
fn any8(names: &[u64], i: usize, key: u64) -> bool
    requires { i + 8 ≤ length names.now }
    ensures { result ≡ false → NoneOf names.now key i (i + 8) }
{
    (((names[i] == key) | (names[i + 1] == key)) | ((names[i + 2] == key) | (names[i + 3] == key)))
        | (((names[i + 4] == key) | (names[i + 5] == key))
            | ((names[i + 6] == key) | (names[i + 7] == key)))
}

// How many entries are passed by eights: each has another key. No `for` goes by eights here, as the loop ends where a hit may be.
fn others(names: &[u64], used: usize, key: u64) -> usize
    requires { used ≤ length names.now / name_width }
    ensures { Others names.now used key result }
{
    let mut i = 0;
    while i + 8 <= used {
        if any8(names, i, key) {
            return i;
        }
        i += 8;
    }
    i
}

// The first of the used entries with a name, whose key is lent too.
pub fn find(source: &[u8], names: &[u64], used: usize, key: u64, name: &[u8]) -> Found
    requires { (used ≤ length names.now / name_width) × Keyed source.now names.now used × (key ≡ key_of name.now) }
    ensures { Finds (names_in source.now names.now used 0) name.now result }
{
    let start = others(names, used, key);
    for i in start..used {
        if is_named(source, names, i, key, name) {
            return Found {
                at: i,
                compared: i + 1,
            };
        }
    }
    Found {
        at: used,
        compared: used,
    }
}
