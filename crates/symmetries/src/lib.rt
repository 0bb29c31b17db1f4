// Grids in other clothes: what a change of cells and digits makes of a board, and what follows it. There is no code here: definitions in specs/, theorems in proofs/.
#![tactic(auto)]
