//! Which superblock is collected next: the trait of a policy, and three policies. It sees a table of superblocks, and
//! knows neither the rows nor the dies behind it.
#![tactic(auto)]

mod candidates;
mod greedy;
mod oldest;
mod policy;
mod round_robin;

pub use candidates::default_victim;
pub use greedy::Greedy;
pub use oldest::Oldest;
pub use policy::Policy;
pub use round_robin::RoundRobin;
