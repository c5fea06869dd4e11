//! Lemmas that several crates cite, on lists, options, results, conditions, numbers and texts of digits: public proofs, each
//! stated once. There is no code in it.
#![tactic(auto)]
