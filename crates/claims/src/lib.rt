// What was demanded, as theorems over the calls: the statements are in specs/, their proofs in proofs/. There is no code here.
#![tactic(auto)]
