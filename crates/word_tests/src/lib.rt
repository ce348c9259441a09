//! Tests of the words of the command line: the values that the program reads are those that `clap` reads. It has no code of its
//! own.
#![tactic(auto)]

#[cfg(test)]
mod values;
