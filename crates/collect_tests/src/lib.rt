//! Tests of runs that collect garbage, over sources, sinks and dies in memory and policies of their own. It has no code of its own.
#![tactic(auto)]

#[cfg(test)]
mod drives;
#[cfg(test)]
mod policies;
#[cfg(test)]
mod rows;
