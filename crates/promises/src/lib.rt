// Every promise about the calls in one statement, and its witness; no code.
#![tactic(auto)]
