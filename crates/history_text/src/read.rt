// Histories, read back from their text.
mod addresses;
mod entries;
mod histories;
mod kinds;
mod lines;
mod numbers;
mod pieces;
mod rows;
mod steps;

pub use histories::read_history;
