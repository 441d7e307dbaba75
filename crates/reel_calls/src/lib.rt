// The calls that the programs that take tapes make on a store of either engine: its set-up, and a record's call.
#![tactic(auto)]

mod calls;

pub use calls::{set_up, take};
