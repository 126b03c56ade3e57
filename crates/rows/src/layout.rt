// The rows of the five tables: how many words each has, and which they are, in their order.
ghost use Rattle.std.specs.Prelude.{◌≡◌, ◌+◌, ◌*◌, ◌≤◌, length};
ghost use Rattle.language.specs.Findings.{diag_width};
ghost use Rattle.rows.specs.Rows.{row_diagnostic};

// What the scanner found.
#[derive(Clone, Copy)]
pub struct LexemeRow {}

impl LexemeRow {
    pub const WORDS: usize = 6;

    pub const START: usize = 0;

    pub const END: usize = 1;

    pub const CLASS: usize = 2;

    pub const KIND: usize = 3;

    pub const LOW: usize = 4;

    pub const HIGH: usize = 5;
}

#[derive(Clone, Copy)]
pub struct TokenRow {}

impl TokenRow {
    pub const WORDS: usize = 7;

    pub const KIND: usize = 0;

    pub const LINE: usize = 1;

    pub const COLUMN: usize = 2;

    pub const START: usize = 3;

    pub const END: usize = 4;

    pub const LOW: usize = 5;

    pub const HIGH: usize = 6;
}

// What the numbers after its token mean depends on a node's kind.
#[derive(Clone, Copy)]
pub struct NodeRow {}

impl NodeRow {
    pub const WORDS: usize = 5;

    pub const KIND: usize = 0;

    pub const TOKEN: usize = 1;

    pub const FIRST: usize = 2;

    pub const SECOND: usize = 3;

    pub const THIRD: usize = 4;
}

// What a check finds. What `text`, `start` and `end` name is which text its name is in, and where; what `first`, `second` and
// `third` mean depends on the kind. `statement` is the number of its statement, from 1.
#[derive(Clone, Copy, PartialEq, Eq)]
pub struct DiagnosticRow {
    pub line: u64,
    pub column: u64,
    pub severity: u64,
    pub kind: u64,
    pub text: u64,
    pub start: u64,
    pub end: u64,
    pub ty: u64,
    pub first: u64,
    pub second: u64,
    pub third: u64,
    pub statement: u64,
}

impl DiagnosticRow {
    pub const WORDS: usize = 12;
}

// Row i of the table of findings.
pub fn diagnostic_row(diags: &[u64], i: usize) -> DiagnosticRow
    requires { diag_width * i + diag_width ≤ length diags.now }
    ensures { result ≡ row_diagnostic diags.now i }
{
    let at = DiagnosticRow::WORDS * i;
    DiagnosticRow {
        line: diags[at],
        column: diags[at + 1],
        severity: diags[at + 2],
        kind: diags[at + 3],
        text: diags[at + 4],
        start: diags[at + 5],
        end: diags[at + 6],
        ty: diags[at + 7],
        first: diags[at + 8],
        second: diags[at + 9],
        third: diags[at + 10],
        statement: diags[at + 11],
    }
}

// What a check holds: a statement, or a part of the expression of one. Its own place comes first, that of its expression later.
#[derive(Clone, Copy)]
pub struct StatementRow {}

impl StatementRow {
    pub const WORDS: usize = 11;

    pub const LINE: usize = 0;

    pub const COLUMN: usize = 1;

    pub const KIND: usize = 2;

    // of a `let` its slot, of an argument the number of its parameter
    pub const SLOT: usize = 3;

    pub const FORM: usize = 4;

    pub const EXPRESSION_LINE: usize = 5;

    pub const EXPRESSION_COLUMN: usize = 6;

    pub const TYPE: usize = 7;

    // which text its bytes are in
    pub const TEXT: usize = 8;

    // what these mean depends on the form and the type
    pub const LOW: usize = 9;

    pub const HIGH: usize = 10;

    // The kinds of statements, in the order of hir.rs `StmtKind`.
    pub const LET: u64 = 1;

    pub const EMIT: u64 = 2;

    pub const WAIT: u64 = 3;

    pub const EVAL: u64 = 4;

    pub const DISCARD: u64 = 5;

    // Then what a part is to the expression that it stands below.
    pub const CALLEE: u64 = 6;

    pub const ARGUMENT: u64 = 7;

    pub const LEFT: u64 = 8;

    pub const RIGHT: u64 = 9;
}
