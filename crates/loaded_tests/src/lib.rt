//! Tests of a channel that begins with a superblock to collect: its erase answers FAIL or passes. It has no code of its own.
#![tactic(auto)]

#[cfg(test)]
mod collects;
#[cfg(test)]
mod erases;
#[cfg(test)]
mod loaded_channel;
#[cfg(test)]
mod loaded_dies;
