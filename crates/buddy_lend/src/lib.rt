// A buddy store's tables written: a block lent from a ready side or from the left end of a chunk that is added, its loan entered
// in the book. The writers here and beside it take each table by itself: of a struct of `&mut` tables every contract would have to say
// that its references stay the same ones, and the calls lend some tables to be read and others to be written.
#![tactic(auto)]

mod booking;
mod lending;
mod serving;
mod taking;

pub use lending::lend;
pub use serving::serve;
