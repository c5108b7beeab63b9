// Hand checks and whole decisions, worked out by computation: the statements are in specs/, their proofs in proofs/. There is no code here.
#![tactic(auto)]
