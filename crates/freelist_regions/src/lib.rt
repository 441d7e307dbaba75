// A free-list store's records in their lent tables, and its free regions: sorted by chunk and start, one behind the other; and
// what an ask looks for among them.
#![tactic(auto)]

mod asks;
mod counts;
mod fronts;
mod joins;
mod records;
mod regions;
mod search;
mod seats;
mod stands;

pub use asks::{mask_for, size_for};
pub use counts::region_count;
pub use fronts::rename;
pub use joins::{Joined, join_region};
pub use records::{chunk_at, gap_at, put_chunk, put_gap, region_at};
pub use regions::cut_region;
pub use search::{Fit, find_fit};
pub use seats::seat;
