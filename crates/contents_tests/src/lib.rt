//! Tests of the contents of an image's channels, over sources in memory and dies that fail at listed calls. It has no code of
//! its own.
#![tactic(auto)]

#[cfg(test)]
mod begun;
#[cfg(test)]
mod channels;
#[cfg(test)]
mod faults;
#[cfg(test)]
mod images;
#[cfg(test)]
mod written;
