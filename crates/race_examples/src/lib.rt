//! A worked race of two actors, one of which a history's limit stops: the statement on a race holds of it, with its end and its
//! hints. It has no code that runs: the example is the contract of a function that does nothing.
#![tactic(auto)]

mod stopped_race;

pub use stopped_race::two_actors_race_stops;
