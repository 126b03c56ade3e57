#![tactic(auto)]
// No code: the language's definitions are in specs/, and the theorems about them in proofs/.
