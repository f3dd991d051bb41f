// No code: definitions on numbers and runs of numbers (specs/) and their laws (proofs/), for the crates above.
#![tactic(auto)]
