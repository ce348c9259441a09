//! Tests of sizes and of the code: each public call on its happy path, and tables of values that were worked out apart. It has
//! no code of its own.
#![tactic(auto)]

#[cfg(test)]
mod bit_lists;
#[cfg(test)]
mod codewords;
#[cfg(test)]
mod kept_codewords;
#[cfg(test)]
mod ladders;
#[cfg(test)]
mod lanes;
#[cfg(test)]
mod layers;
#[cfg(test)]
mod matrices;
#[cfg(test)]
mod payloads;
#[cfg(test)]
mod sizes;
#[cfg(test)]
mod stripe_sums;
#[cfg(test)]
mod values;
