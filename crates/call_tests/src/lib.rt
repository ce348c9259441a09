//! Tests of whole calls of a channel: the moments that a gate sees of them. It has no code of its own.
#![tactic(auto)]

#[cfg(test)]
mod moments;
#[cfg(test)]
mod record;
#[cfg(test)]
mod small_drive;
