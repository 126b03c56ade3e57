// The types of values, and the texts that rows point into.

// The types, by their numbers: in the order of check.rs `Ty`, where those between are types that no value has yet.
#[derive(Clone, Copy)]
pub struct Ty {}

impl Ty {
    // of a module, and of a name whose statement failed
    pub const NONE: u64 = 0;

    // of a function that gives nothing
    pub const VOID: u64 = 1;

    pub const BOOL: u64 = 2;

    pub const U8: u64 = 3;

    pub const U16: u64 = 4;

    pub const U32: u64 = 5;

    pub const U64: u64 = 6;

    pub const IP4: u64 = 7;

    pub const SOCK4: u64 = 8;

    pub const BYTES: u64 = 9;

    pub const PKT: u64 = 10;

    pub const PKT_GEN: u64 = 11;

    pub const TIME_JUMP: u64 = 12;

    pub const FUNCTION: u64 = 14;

    // an integer that has no size yet
    pub const INTEGER: u64 = 16;

    // bytes that are in the table's text; their type is shown as `BYTES`
    pub const TABLE_BYTES: u64 = 17;
}

// Which text is shown, and where in it.
#[derive(Clone, Copy, Default)]
pub struct Text {
    pub from: u64,
    pub start: u64,
    pub end: u64,
}

impl Text {
    pub const NONE: u64 = 0;

    pub const SOURCE: u64 = 1;

    // the constant table's
    pub const TABLE: u64 = 2;
}

// A type as rows show it: its number, and of a function its entry in the constant table, else 0.
#[derive(Clone, Copy)]
pub struct Type {
    pub kind: u64,
    pub entry: u64,
}
