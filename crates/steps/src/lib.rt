// What every board call means, and why: definitions in specs/, theorems in proofs/. There is no code here; the crates above cite both.
#![tactic(auto)]
