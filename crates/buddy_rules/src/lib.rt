// A buddy store in its lent tables: its nodes by what its words say of them, a level of its pairs in words (its ring, its vacant
// places, what is done to it), when the whole is sound, and the tests of both. specs/ says it; proofs/ what follows. No code but
// constants, where the words stand and those that have a name, and the view that a call reads a store by.
#![tactic(auto)]

mod layout;
mod view;

pub use layout::{
    AFTER_AT, CHUNK_PLACES_AT, CHUNK_SIZE_AT, CHUNK_WORDS, CHUNKS_MARK, COLUMNS, EXHAUSTED,
    FREE_WORD, HEAD_MARK, HEAD_WORDS, INDEX_MARK, LEFT_READY, LEVELS_AT, LOANS_MARK, MEMORY_AT,
    PLACE_WORDS, RIGHT_READY, ROOM_MARK, TOP_AT, VACANT,
};
pub use view::BuddyView;
