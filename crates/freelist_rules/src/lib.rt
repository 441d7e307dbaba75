// A free-list store's records. specs/ says what each call does to them, proofs/ shows what follows. No code.
#![tactic(auto)]

mod view;

pub use view::FreeListView;

// How many words each takes in a table; specs/Records has the same names.
pub const CHUNK_WORDS: usize = 3;

pub const REGION_WORDS: usize = 4;
// Where the number, memory and size of the first chunk stand, and the chunk, start, end and loan in front of the first region.
pub const CHUNK_NUMBER_AT: usize = 3;

pub const CHUNK_MEMORY_AT: usize = 4;

pub const CHUNK_BYTES_AT: usize = 5;

pub const REGION_CHUNK_AT: usize = 4;

pub const REGION_START_AT: usize = 5;

pub const REGION_END_AT: usize = 6;

pub const REGION_FRONT_AT: usize = 7;
// How many regions there are, in their table's own record, and how many of them are all of their chunk.
pub const REGION_COUNT_AT: usize = 1;

pub const WHOLE_AT: usize = 2;
// What each of a free-list store's tables begins with, "list" and what it is in ASCII, and where the words of the head stand;
// specs/Tables has the same names.
pub const HEAD_MARK: u64 = 0x6c69_7374_6865_6164;

pub const LOANS_MARK: u64 = 0x6c69_7374_6c6f_616e;

pub const CHUNKS_MARK: u64 = 0x6c69_7374_6368_6e6b;

pub const INDEX_MARK: u64 = 0x6c69_7374_696e_6478;

pub const ROOM_MARK: u64 = 0x6c69_7374_726f_6f6d;

pub const CHUNK_SIZE_AT: usize = 1;

pub const HEAD_WORDS: usize = 2;
// Chunk numbers given and chunks held, in the chunks' own record.
pub const MADE_AT: usize = 1;

pub const CHUNKS_AT: usize = 2;

// A free region, and the record of the last loan in front of it by chunk and place, 0 where there is none.
#[derive(Clone, Copy, PartialEq, Eq)]
pub struct Gap {
    pub chunk: u64,
    pub start: u64,
    pub end: u64,
    pub front: u64,
}

// Columns behind the entries of the index: for each record of the loans the one behind it by place, and the one in front.
pub const COLUMNS: usize = 2;
