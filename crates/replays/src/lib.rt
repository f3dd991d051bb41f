// No code: what demand 3 says of the lines of a trace and of the totals of a report (specs/), and its proof (proofs/).
#![tactic(auto)]
