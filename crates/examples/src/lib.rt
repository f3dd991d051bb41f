// No code: worked examples of the unit, computed from its definitions (specs/) and proved in one statement (proofs/).
#![tactic(auto)]
