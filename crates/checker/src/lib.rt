#![tactic(auto)]
// The checker: a source into four lent tables. Ports check.rs's counts and refusals, and its entry; the definitions are
// `Numbers` of the crate `language`.
ghost use Rattle.std.specs.Prelude.{◌≡◌, List, [], ℕ, ◌*◌, ◌≤◌, length, take};
ghost use Rattle.table.specs.Table.{pad_to};
ghost use Rattle.language.specs.Numbers.{verdict, placed, token_place, checked};
ghost use Rattle.language.specs.Judgements.{Diag, Held, judged};
ghost use Rattle.language.specs.Tables.{token_width};
ghost use Rattle.rows.specs.Tokens.{TokenTable};
ghost use Rattle.statements.specs.Checking.{refusal_number, refusal_token, Found};
ghost use Rattle.rows.specs.Rows.{verdict_as};
ghost use Rattle.checker.specs.Entry.{refusal, GivesUp, Parses, CheckSource, Concludes};

use findings::Counts;
use rows::{NodeRow, StatementRow, TokenRow, Tokens, Verdict};
use statements::Refusal;

#[repr(C)]
#[derive(Clone, Copy)]
pub struct CheckAnswer {
    pub verdict: Verdict,
    pub tokens: u64,
    pub nodes: u64,
    pub errors: u64,
    pub warnings: u64,
    pub statements: u64,
    // how many names were compared in searches among the bindings
    pub comparisons: u64,
}

// The answer of a refusal: no counts.
fn refused(verdict: Verdict) -> CheckAnswer
    ensures { result ≡ refusal verdict }
{
    CheckAnswer {
        verdict: verdict,
        tokens: 0,
        nodes: 0,
        errors: 0,
        warnings: 0,
        statements: 0,
        comparisons: 0,
    }
}

// The answer where nothing is refused.
fn done(counts: Counts, count: usize, rows: usize, statements: usize) -> CheckAnswer
    ensures { result ≡ record { verdict = verdict_as (verdict 0 0 0); tokens = count; nodes = rows; errors = counts.errors; warnings = counts.warnings; statements = statements; comparisons = counts.comparisons } }
{
    CheckAnswer {
        verdict: Verdict::new(Verdict::DONE, 0, 0),
        tokens: count as u64,
        nodes: rows as u64,
        errors: counts.errors as u64,
        warnings: counts.warnings as u64,
        statements: statements as u64,
        comparisons: counts.comparisons as u64,
    }
}

// A refusal that leaves nothing in any table.
fn give_up(
    verdict: Verdict,
    toks: &mut [u64],
    nodes: &mut [u64],
    diags: &mut [u64],
    stmts: &mut [u64],
) -> CheckAnswer
    ensures { GivesUp verdict (length toks.old) (length nodes.old) (length diags.old) (length stmts.old)
        result toks.new nodes.new diags.new stmts.new }
{
    table::clear(toks);
    table::clear(nodes);
    table::clear(diags);
    table::clear(stmts);
    refused(verdict)
}

// What C sees of a refusal: its number, and where it stands.
fn placed(toks: &Tokens, refusal: Refusal) -> Verdict
    ensures { result ≡ verdict_as (placed (refusal_number refusal) (token_place toks.now (refusal_token refusal))) }
{
    let tok = toks.at(refusal.token());
    Verdict::new(refusal.number(), tok.line, tok.column)
}

// The answer where all statements were judged: the statements are kept where there is no error.
fn conclude(
    counts: Counts,
    count: usize,
    rows: usize,
    stmts: &mut [u64],
) -> Result<CheckAnswer, Verdict>
    ensures { (s toks tree found : List ℕ) (ds : List Diag) (hs : List Held) (ls : List ℕ) → Parses s toks tree count rows
        → checked s ≡ judged ds hs ls
        → Found s (pad_to (length found) []) (pad_to (length stmts.old) []) counts found stmts.old ds hs ls
        → Concludes s toks tree (length found) (length stmts.old) result found stmts.new }
{
    if counts.errors != 0 {
        table::clear(stmts);
        return Ok(done(counts, count, rows, 0));
    }
    if stmts.len() / StatementRow::WORDS < counts.statements {
        return Err(Verdict::new(Verdict::STATEMENT_ROOM, 0, 0));
    }
    Ok(done(counts, count, rows, counts.statements))
}

// Judges a tree. The tables of diagnostics and statements start out as zeros; after a refusal their words say nothing.
fn judge(
    source: &[u8],
    toks: &[u64],
    nodes: &[u64],
    diags: &mut [u64],
    stmts: &mut [u64],
    count: usize,
    rows: usize,
) -> Result<CheckAnswer, Verdict>
    requires parses { Parses source.now toks.now nodes.now count rows }
    requires diags_value { (diags.old ≡ pad_to (length diags.old) []) × (stmts.old ≡ pad_to (length stmts.old) []) }
    ensures { Concludes source.now toks.now nodes.now (length diags.old) (length stmts.old) result diags.new stmts.new }
{
    let token_words = TokenRow::WORDS * count;
    let node_words = NodeRow::WORDS * rows;
    let lexed = Tokens::new(source, &toks[..token_words]);
    match statements::run(&lexed, &nodes[..node_words], diags, stmts) {
        Ok(counts) => conclude(counts, count, rows, stmts),
        Err(refusal) => Err(placed(&lexed, refusal)),
    }
}

// The same, but a refusal leaves nothing in any table.
fn check_statements(
    source: &[u8],
    toks: &mut [u64],
    nodes: &mut [u64],
    diags: &mut [u64],
    stmts: &mut [u64],
    count: usize,
    rows: usize,
) -> CheckAnswer
    requires parses { Parses source.now toks.old nodes.old count rows }
    requires diags_value { (diags.old ≡ pad_to (length diags.old) []) × (stmts.old ≡ pad_to (length stmts.old) []) }
    ensures { CheckSource source.now (length toks.old) (length nodes.old) (length diags.old) (length stmts.old)
        result toks.new nodes.new diags.new stmts.new }
{
    match judge(source, toks, nodes, diags, stmts, count, rows) {
        Ok(answer) => answer,
        Err(verdict) => give_up(verdict, toks, nodes, diags, stmts),
    }
}

// Checks a source into four lent tables: of tokens, nodes, diagnostics and statements.
pub fn check_source(
    source: &[u8],
    toks: &mut [u64],
    nodes: &mut [u64],
    diags: &mut [u64],
    stmts: &mut [u64],
) -> CheckAnswer
    ensures { CheckSource source.now (length toks.old) (length nodes.old) (length diags.old) (length stmts.old)
        result toks.new nodes.new diags.new stmts.new }
{
    table::clear(diags);
    table::clear(stmts);
    let parsed = parse::parse_source(source, toks, nodes);
    let verdict = parsed.verdict;
    if verdict.number != Verdict::DONE {
        return refused(verdict);
    }
    check_statements(
        source,
        toks,
        nodes,
        diags,
        stmts,
        parsed.tokens as usize,
        parsed.nodes as usize,
    )
}
