// A buddy store as its user calls it: set up, ask, deliver, return. Each call is planned, by the gate and the tests behind it, and
// then carried out; `calls` has the calls told of the store's share of the account.
#![tactic(auto)]

mod asks;
pub mod calls;
mod carries;
mod deliveries;
mod plans;
mod returns;
mod set_ups;

pub use asks::ask;
pub use carries::{carry_ask, carry_deliver, carry_return, carry_set_up};
pub use deliveries::deliver;
pub use plans::{plan_ask, plan_deliver, plan_return, plan_set_up};
pub use returns::return_block;
pub use set_ups::set_up;
