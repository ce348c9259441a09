//! The refresh of a page: a look at its row, and a copy of the page that it names to a new slot. It knows no trace and no
//! hint, makes no room where a copy finds none, and condemns no page.
#![tactic(auto)]

mod alone_laws;
mod refreshing;

pub use alone_laws::refreshes_alone_are_refreshes;
pub use refreshing::refresh;
