// Which chunks of a free-list store go, and the list that the caller reads.
#![tactic(auto)]

mod chunks;
mod marks;

pub use marks::{Marked, goes_at, is_whole, mark};
