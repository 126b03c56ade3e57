#![tactic(auto)]
// What a check holds, as text in the oracle's form: a line for each statement, with its parts. What rows name by number, types and
// parts of the constant table's text, is shown here for findings too. Nothing here asks that a table be one that the checker left.
mod brackets;
mod expression;
mod statement;
pub mod texts;
pub mod types;

pub use statement::statements;
