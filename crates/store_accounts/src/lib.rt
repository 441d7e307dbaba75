// The account and the order, as the calls of both engines find and leave them.
#![tactic(auto)]

mod accounts;
mod orders;

pub use accounts::{charged, covers, lost, released, share_of, with_order, with_share};
pub use orders::{is_open_for, no_order, order_from, same_order};
