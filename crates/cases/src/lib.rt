// The published cases P1 to P11, the card of P10 among them, as theorems about the definitions: what they say in specs/, why it holds in proofs/. There is no code here.
#![tactic(auto)]
