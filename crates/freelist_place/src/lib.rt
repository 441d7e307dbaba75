// A free-list store's tables written: set up, a chunk size raised, a block lent, a chunk added, a block taken back.
// Its functions take slices and no struct of them: a struct of `&mut` tables was tried and proves, but each contract then owes a
// further clause, that the references stay the same ones, and the calls lend some tables by `&` and others by `&mut`.
#![tactic(auto)]

mod adding;
mod backing;
mod counted;
mod lending;
mod raising;
mod setting;
mod threads;
mod wholes;

pub use adding::add_chunk;
pub use backing::take_back;
pub use lending::lend;
pub use raising::raise_size;
pub use setting::fresh;
