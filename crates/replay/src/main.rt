#![tactic(auto)]
// Prints the answers of a proved library to the sources on standard input, to be compared with those of the Rust.
// tests/record made `stdin`, and `stdout` from the Rust's answers to it.
fn main(rt: HostRuntime) {
    replaying::run(&rt);
}
