#![tactic(auto)]
// What a check finds, as text in the oracle's form: each diagnostic is a line. Nothing here asks that a table be one that the checker
// left.
mod answers;
mod diagnostic;

pub use answers::{answer, grouped, report, tell_unshown};
