// What a call of a free-list store comes to by the tests behind the gate: reads only.
#![tactic(auto)]

mod deciding;
mod deliveries;
mod returns;

pub use deciding::{Buying, Plan, Taking, decide};
pub use deliveries::decide_delivery;
pub use returns::decide_return;
