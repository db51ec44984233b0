//! What many crates share of definitions and laws, and std does not have: what a reader answers, its first refusal among
//! it, counts of events, bytes cut in two parts, and small laws of Booleans, options, results and lists. There is no code
//! here.
#![tactic(auto)]
