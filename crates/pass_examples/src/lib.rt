// No code: worked examples of the collector's pass, computed from its definitions (specs/) and proved (proofs/).
#![tactic(auto)]
