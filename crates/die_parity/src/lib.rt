//! The running sum of a stripe's words, which becomes the stripe's parity. It knows no dies and no slots.
#![tactic(auto)]

mod stripe_sum;

pub use stripe_sum::StripeSum;
