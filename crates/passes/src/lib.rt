// What passes of the reference collector come to: theorems, no code.
#![tactic(auto)]
