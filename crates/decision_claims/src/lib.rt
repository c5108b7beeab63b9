// What was demanded of a decision, as theorems: the statements are in specs/, their proofs in proofs/. There is no code here.
#![tactic(auto)]
