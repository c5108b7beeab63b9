// What a caller may rely on who reads and writes event files (document 02, CR 5): statements over the calls' own claims; no code.
#![tactic(auto)]
