//! Lemmas on tests, lists and bits that several crates use and std doesn't have. It has no code, and knows no drive.
#![tactic(auto)]
