// No code: demand 3, what holds through any sequence of the unit's calls (specs/), and its proof (proofs/).
#![tactic(auto)]
