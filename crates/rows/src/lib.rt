#![tactic(auto)]
// The vocabulary: what tables and answers are made of. Who writes a table and who reads it take its layout, its numbers and
// its readers from here. docs/TABLES.md says the same in prose.
mod layout;
mod node;
mod source;
mod token;
mod tokens;
mod types;
mod verdict;

pub use layout::{DiagnosticRow, LexemeRow, NodeRow, StatementRow, TokenRow, diagnostic_row};
pub use node::{NodeKind, node_word};
pub use source::Source;
pub use token::{Tok, TokKind, Token, kind_at, name_at, tok_at, token_at, token_row, two_after};
pub use tokens::Tokens;
pub use types::{Text, Ty, Type};
pub use verdict::Verdict;
