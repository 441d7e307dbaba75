// A tape: a header of words that names a store's settings, then records of calls. Here one is read; nothing that it can
// hold makes any of these fail.
#![tactic(auto)]

mod header;
mod numbers;
mod record;

pub use header::{HEADER_BYTES, Settings, Start, read_header};
pub use numbers::word_at;
pub use record::{RECORD_BYTES_MOST, Record, read_record, record_length};
