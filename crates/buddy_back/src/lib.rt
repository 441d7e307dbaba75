// A buddy store's tables written as a block is taken back, and what that frees told.
#![tactic(auto)]

mod backing;
mod freeing;

pub use freeing::{Freed, take_back};
