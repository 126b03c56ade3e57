#![tactic(auto)]
// The constant table of 01, "Judgements": the module `bench`, its texts and its values, and the search of a name among a
// module's entries.
//
// An entry is named by its number, from 1 on; 0 is the root. A row has the number of the module that holds the entry,
// where its name starts and ends in the text, and its value as three words, which are 0 for a module. What a function takes and
// gives is answered by its number: judging asks for it in each call, and a copy of a table would lie on the stack at each level.
ghost use Rattle.std.specs.Prelude.{◌≡◌, ◌+◌, ◌*◌, ◌<◌, ◌≤◌};
ghost use Rattle.language.specs.Values.{table_text, lookup, entry_at};
ghost use Rattle.constants.specs.Constants.{entry_width, entry_count, table_rows, or_zero, is_hit, entry_word, NameText, is_module, is_function_entry, has_span, function_named, parameter_as, signature_as, signature_of};

use rows::Ty;

// A parameter of a function: the number of its type, and where its name starts and ends in the table's text.
#[derive(Clone, Copy)]
pub struct Parameter {
    pub ty: u64,
    pub start: u64,
    pub end: u64,
}

// What a function gives and takes: the number of a type, how many parameters there are, and two of them. What is no function
// gives `VOID` and takes none; parameters that are not there have the type `VOID` and no name.
#[derive(Clone, Copy)]
pub struct Signature {
    pub gives: u64,
    pub params: u64,
    pub first: Parameter,
    pub second: Parameter,
}

#[derive(Clone, Copy)]
pub struct Constants {
    pub rows: [u64; Constants::WORDS],
    pub text: [u8; Constants::BYTES],
}

impl Constants {
    pub const ENTRIES: usize = 14;

    pub const ROW_WORDS: usize = 6;

    pub const WORDS: usize = Constants::ENTRIES * Constants::ROW_WORDS;

    pub const BYTES: usize = 82;

    // The number of the last entry.
    pub const LAST: u64 = Constants::ENTRIES as u64;

    // The words of a row, after the module's number.
    pub const NAME_START: usize = 1;

    pub const NAME_END: usize = 2;

    pub const KIND: usize = 3;

    pub const LOW: usize = 4;

    pub const HIGH: usize = 5;

    // The numbers of the functions.
    pub const PING: u64 = 7;

    pub const PAUSE: u64 = 10;

    pub const BURST: u64 = 11;

    pub const MARK: u64 = 12;

    pub const PICK: u64 = 13;

    pub const HOST: u64 = 14;

    // A copy of the table, to be lent: a constant array is made anew wherever it is named.
    #[rattlefmt::skip]
    pub fn new() -> Self
        ensures { (result.rows ≡ table_rows) × (result.text ≡ table_text) }
    {
        Constants {
            rows: [
                0, 0, 5, Ty::NONE, 0, 0, // bench
                1, 5, 9, Ty::U16, 80, 0, // HTTP
                1, 9, 13, Ty::IP4, 2130706433, 0, // LOOP
                1, 13, 16, Ty::U32, 70000, 0, // BIG
                1, 16, 18, Ty::BOOL, 1, 0, // ON
                1, 18, 24, Ty::TABLE_BYTES, 24, 26, // BANNER
                1, 26, 30, Ty::FUNCTION, Constants::PING, 0, // ping
                1, 30, 34, Ty::NONE, 0, 0, // deep
                8, 34, 38, Ty::U8, 0, 0, // ZERO
                1, 38, 43, Ty::FUNCTION, Constants::PAUSE, 0, // pause
                1, 47, 52, Ty::FUNCTION, Constants::BURST, 0, // burst
                1, 58, 62, Ty::FUNCTION, Constants::MARK, 0, // mark
                1, 64, 68, Ty::FUNCTION, Constants::PICK, 0, // pick
                1, 72, 76, Ty::FUNCTION, Constants::HOST, 0, // host
            ],
            text: *b"benchHTTPLOOPBIGONBANNERokpingdeepZEROpausetimebursttobodymarkonpickporthostnumber",
        }
    }
}

// A name that a diagnostic shows: a part of the table's text or of the source.
pub fn name_text<'a>(
    from_table: bool,
    source: &'a [u8],
    text: &'a [u8],
    a: usize,
    e: usize,
) -> &'a [u8]
    ensures { NameText from_table source.now text.now a e result.now }
{
    if from_table {
        return parts::part(text, a, e);
    }
    parts::part(source, a, e)
}

// Word j of the entry numbered k, 0 where there is no such entry.
pub fn entry_word(rows: &[u64; Constants::WORDS], k: u64, j: usize) -> u64
    requires { j < entry_width }
    ensures { result ≡ entry_word rows.now k j }
{
    if k == 0 {
        return 0;
    }
    if Constants::LAST < k {
        return 0;
    }
    rows[(k as usize - 1) * Constants::ROW_WORDS + j]
}

// Whether the entry in row i is the one of a module with a name.
fn is_hit(
    rows: &[u64; Constants::WORDS],
    text: &[u8; Constants::BYTES],
    i: usize,
    inside: u64,
    name: &[u8],
) -> bool
    requires { i < entry_count }
    ensures { result ≡ is_hit rows.now text.now i inside name.now }
{
    let at = i * Constants::ROW_WORDS;
    if rows[at] != inside {
        return false;
    }
    let a = rows[at + Constants::NAME_START] as usize;
    let e = rows[at + Constants::NAME_END] as usize;
    parts::same(parts::part(text, a, e), name)
}

// The number of a module's entry with a name, or 0.
pub fn lookup(
    rows: &[u64; Constants::WORDS],
    text: &[u8; Constants::BYTES],
    inside: u64,
    name: &[u8],
) -> u64
    requires { (rows.now ≡ table_rows) × (text.now ≡ table_text) }
    ensures { (result ≡ or_zero (lookup inside name.now)) × (result ≤ entry_count) }
{
    for i in 0..Constants::ENTRIES {
        if is_hit(rows, text, i, inside, name) {
            return i as u64 + 1;
        }
    }
    0
}

// Whether an entry is a module: it has a name and no value.
pub fn is_module(rows: &[u64; Constants::WORDS], k: u64) -> bool
    requires { rows.now ≡ table_rows }
    ensures { result ≡ is_module k }
{
    let start = entry_word(rows, k, Constants::NAME_START);
    let end = entry_word(rows, k, Constants::NAME_END);
    let kind = entry_word(rows, k, Constants::KIND);
    (start < end) & (kind == Ty::NONE)
}

// Whether an entry is a function, which is its own value.
pub fn is_function(rows: &[u64; Constants::WORDS], k: u64) -> bool
    requires { rows.now ≡ table_rows }
    ensures { result ≡ is_function_entry k }
{
    let kind = entry_word(rows, k, Constants::KIND);
    let own = entry_word(rows, k, Constants::LOW);
    (kind == Ty::FUNCTION) & (own == k)
}

// Whether an entry's name has this span in the table's text.
fn has_span(rows: &[u64; Constants::WORDS], k: u64, start: u64, end: u64) -> bool
    requires { rows.now ≡ table_rows }
    ensures { result ≡ has_span k start end }
{
    let a = entry_word(rows, k, Constants::NAME_START);
    let e = entry_word(rows, k, Constants::NAME_END);
    (a == start) & (e == end)
}

// The number of the function whose name has this span, or 0.
pub fn function_named(rows: &[u64; Constants::WORDS], start: u64, end: u64) -> u64
    requires { rows.now ≡ table_rows }
    ensures { result ≡ function_named start end }
{
    for k in 1..=Constants::LAST {
        if is_function(rows, k) & has_span(rows, k, start, end) {
            return k;
        }
    }
    0
}

// ---- what a function gives and takes

fn param(ty: u64, start: u64, end: u64) -> Parameter
    ensures { result ≡ parameter_as ty start end }
{
    Parameter { ty, start, end }
}

fn takes(gives: u64, params: u64, first: Parameter, second: Parameter) -> Signature
    ensures { result ≡ signature_as gives params first second }
{
    Signature {
        gives,
        params,
        first,
        second,
    }
}

// What the entry numbered k gives and takes.
pub fn signature_of(k: u64) -> Signature
    ensures { result ≡ signature_of (entry_at k) }
{
    let none = param(Ty::VOID, 0, 0);
    match k {
        Constants::PING => takes(Ty::PKT, 1, param(Ty::IP4, 52, 54), none),
        Constants::PAUSE => takes(Ty::TIME_JUMP, 1, param(Ty::U32, 43, 47), none),
        Constants::BURST => takes(
            Ty::PKT_GEN,
            2,
            param(Ty::SOCK4, 52, 54),
            param(Ty::BYTES, 54, 58),
        ),
        Constants::MARK => takes(Ty::VOID, 1, param(Ty::BOOL, 62, 64), none),
        Constants::PICK => takes(Ty::U32, 1, param(Ty::U16, 68, 72), none),
        Constants::HOST => takes(Ty::IP4, 1, param(Ty::U8, 76, 82), none),
        _ => takes(Ty::VOID, 0, none, none),
    }
}
