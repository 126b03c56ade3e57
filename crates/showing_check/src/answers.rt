// Whole answers: what was found, what the check program prints, and what the modes `check` and `grouped` do.
use crate::diagnostic;
use checker::CheckAnswer;
use constants::Constants;
use printing::output::Output;
use printing::verdict;
use rows::{DiagnosticRow, Verdict};

// The diagnostics that the table holds, and the counts of all there were.
fn findings<'a>(
    out: &mut Output<impl Print + Eprint>,
    source: &'a [u8],
    text: &'a [u8],
    diags: &[u64],
    errors: u64,
    warnings: u64,
) {
    let found = errors.saturating_add(warnings);
    diagnostic::diagnostics(out, source, text, diags, found, false);
    diagnostic::counts(out, errors, warnings);
}

fn refused(out: &mut Output<impl Print + Eprint>, verdict: Verdict) {
    out.refused(verdict.number, verdict.line, verdict.column);
    out.byte(b'\n');
}

// What the check program prints: the findings, or one line with the number and the place of a refusal.
pub fn report(
    out: &mut Output<impl Print + Eprint>,
    source: &[u8],
    diags: &[u64],
    checked: CheckAnswer,
) {
    let verdict = checked.verdict;
    if verdict.number != Verdict::DONE {
        refused(out, verdict);
        return;
    }
    // lent from here: a constant array is made anew wherever it is named
    let table = Constants::new();
    let text = table.text;
    findings(out, source, &text, diags, checked.errors, checked.warnings);
}

// How many findings were counted that the table has no row for.
fn unshown(diags: &[u64], checked: CheckAnswer) -> u64 {
    let found = checked.errors.saturating_add(checked.warnings);
    let rows = (diags.len() / DiagnosticRow::WORDS) as u64;
    found.saturating_sub(rows)
}

// Says on standard error how many findings `report` counts and does not show, if there are any.
pub fn tell_unshown(rt: &impl Eprint, diags: &[u64], checked: CheckAnswer) {
    let verdict = checked.verdict;
    if verdict.number != Verdict::DONE {
        return;
    }
    let n = unshown(diags, checked);
    if 0 < n {
        let _ = eprintln!(rt; "findings that are counted and not shown: {n}");
    }
}

// The findings, and the statements after them.
fn judged(
    out: &mut Output<impl Print + Eprint>,
    source: &[u8],
    tokens: &[u64],
    diags: &[u64],
    stmts: &[u64],
    checked: CheckAnswer,
) {
    let v = checked.verdict;
    if v.number != Verdict::DONE {
        verdict::refused(out, v);
        return;
    }
    let table = Constants::new();
    let text = table.text;
    findings(out, source, &text, diags, checked.errors, checked.warnings);
    showing_held::statements(out, source, &text, tokens, stmts, checked.statements);
}

// The mode `check`.
pub fn answer(
    out: &mut Output<impl Print + Eprint>,
    source: &[u8],
    tokens: &mut [u64],
    nodes: &mut [u64],
    diags: &mut [u64],
    stmts: &mut [u64],
) {
    let checked = checker::check_source(source, tokens, nodes, diags, stmts);
    judged(out, source, tokens, diags, stmts, checked);
}

// The findings, each after the number of its statement, and the counts, that of the compared names too.
fn numbered(
    out: &mut Output<impl Print + Eprint>,
    source: &[u8],
    diags: &[u64],
    checked: CheckAnswer,
) {
    let v = checked.verdict;
    if v.number != Verdict::DONE {
        verdict::refused(out, v);
        return;
    }
    let table = Constants::new();
    let text = table.text;
    let found = checked.errors.saturating_add(checked.warnings);
    diagnostic::diagnostics(out, source, &text, diags, found, true);
    diagnostic::counts_compared(out, checked.errors, checked.warnings, checked.comparisons);
}

// The mode `grouped`.
pub fn grouped(
    out: &mut Output<impl Print + Eprint>,
    source: &[u8],
    tokens: &mut [u64],
    nodes: &mut [u64],
    diags: &mut [u64],
    stmts: &mut [u64],
) {
    let checked = checker::check_source(source, tokens, nodes, diags, stmts);
    numbered(out, source, diags, checked);
}
