// What trials of damaged tables need beside the calls themselves: the tables in one row of words, what a refused delivery leaves of an
// account, the cases and what a call on them comes to, and the lines that are printed.
#![tactic(auto)]

mod accounts;
mod cases;
mod image;
mod lines;
mod refusals;

pub use accounts::closed;
pub use cases::{
    CALLS, Call, Case, DAMAGES, Damage, Place, Tally, ask, ask_of, call_of, is_raised, large,
    left_of, spoilt_row, stray,
};
pub use image::{
    CHUNKS_AT, HEAD_AT, INDEX_AT, LIST_AT, LOANS_AT, ROW_MOST, TABLES, Table, copy_of, fits,
    held_block, is_same, is_tried, keep_all, lent_words, own_from, row_words, table_from,
    table_words,
};
pub use lines::{
    print_changed, print_no_set_up, print_not_reached, print_not_set_up, print_too_large,
    print_unsound, print_verdict,
};
pub use refusals::Done;
