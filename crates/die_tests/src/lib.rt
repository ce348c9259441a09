//! Tests of the dies of a channel, over simulated dies and over dies that fail at listed calls. It has no code of its own.
#![tactic(auto)]

#[cfg(test)]
mod channel_dies;
#[cfg(test)]
mod small_dies;
