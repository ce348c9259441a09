//! Tests of the rooms of a channel: its page map, looks, superblocks, policies and hints, and the channel over them. It has no
//! code of its own.
#![tactic(auto)]

#[cfg(test)]
mod channels;
#[cfg(test)]
mod hints;
#[cfg(test)]
mod open_looks;
#[cfg(test)]
mod page_maps;
#[cfg(test)]
mod policies;
#[cfg(test)]
mod superblocks;
