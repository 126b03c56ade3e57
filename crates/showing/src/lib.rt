#![tactic(auto)]
// What the answer for one source looks like in each mode, in the oracle's format. Each `answer` runs an entry on a source
// with the tables that it is lent, and writes the answer's lines.
pub mod canon_mode;
pub mod lex_mode;
pub mod scan_mode;
