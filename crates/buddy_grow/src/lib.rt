// A buddy store's tables written at set-up, and its levels grown to a number.
#![tactic(auto)]

mod blank;
mod growing;

pub use blank::fresh;
pub use growing::grow;
