// C hosts under demand 3: definitions and theorems alone.
#![tactic(auto)]
