// How an event file is cut into records, and what its reader's caller hears: definitions and laws, over the width of a channel; no code.
#![tactic(auto)]
