//! What holds of a whole run, and the laws by which it holds where calls are served one after the other. It has no code
//! that runs: each law is the contract of a function that does nothing.
#![tactic(auto)]

mod pages;
mod serial;
mod serving;
mod spelled;

pub use pages::{lost_rows_were_condemned, pages_are_read_at_once};
pub use serial::{
    serial_runs_begin, serial_runs_go_on, serial_runs_hold, serial_stops_hold, served_fronts_stop,
};
pub use serving::{
    run_texts_tell_pasts, served_calls_go_on, stopped_calls_hold, tags_give_data,
    uncounted_faults_are_none,
};
pub use spelled::{calls_in_order_are_spelled, lawful_pasts_are_spelled};
