#![tactic(auto)]
// What the programs that print answers share: reading and writing, the first line of the input, sources read as lines of hex,
// and text for standard output.
pub mod header;
pub mod input;
pub mod output;
pub mod streams;
pub mod token;
pub mod verdict;
pub mod words;
