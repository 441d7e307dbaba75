// The gate of a free-list store's calls, and of its set-up: reads only.
#![tactic(auto)]

mod deliveries;
mod gating;

pub use deliveries::gate_delivery;
pub use gating::{gate, is_fit};
