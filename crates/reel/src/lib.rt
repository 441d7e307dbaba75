// What the programs that take tapes share short of the calls: a tape read through a buffer, record by record; the settings of a
// store of either engine, and the account and the tables' lengths that it begins with; what a record's call answered.
#![tactic(auto)]

mod answers;
mod reading;
mod settings;
mod start;

pub use answers::{Answer, Taken};
pub use reading::{Buffer, Reading, Turn, Window, next, open, read_header};
pub use settings::{is_buddy, store_of};
pub use start::{Lengths, Limits, fresh_account, table_lengths};
pub use tape::Settings;
