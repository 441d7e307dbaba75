// The gate of a buddy store's calls: the tests 1 to 4 of each, and whether settings and tables fit.
#![tactic(auto)]

mod deliveries;
mod gating;

pub use deliveries::gate_delivery;
pub use gating::{gate, is_fit, lengths_fit};
