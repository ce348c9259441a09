//! Tests of the top call, over sources, sinks and dies in memory. It has no code of its own.
#![tactic(auto)]

#[cfg(test)]
mod commands;
#[cfg(test)]
mod contents;
#[cfg(test)]
mod drains;
#[cfg(test)]
mod drives;
#[cfg(test)]
mod faults;
#[cfg(test)]
mod read_retry;
#[cfg(test)]
mod rows;
#[cfg(test)]
mod saves;
#[cfg(test)]
mod tried_die;
