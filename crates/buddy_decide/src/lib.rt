// What a call of a buddy store comes to, once the gate is passed, read from its tables: an ask by what it looks for and finds
// (its size, the level that serves it, the places for what it needs), a return by the book, a delivery by the chunks held.
#![tactic(auto)]

mod asks;
mod deciding;
mod deliveries;
mod plans;
mod returns;
mod seeking;

pub use deciding::{decide, decide_buy, try_held};
pub use deliveries::decide_delivery;
pub use plans::{Buying, Needing, Plan, Taking, Tried};
pub use returns::decide_return;
pub use seeking::Found;
