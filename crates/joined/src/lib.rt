#![tactic(auto)]
// No code: what the calls promise together, as theorems on the contracts of several entries.
