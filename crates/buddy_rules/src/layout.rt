// What each of a buddy store's tables begins with, "budd" and what it is in ASCII, and where the words of the head stand; specs/Tables
// has the same names.
pub const HEAD_MARK: u64 = 0x6275_6464_6865_6164;

pub const LOANS_MARK: u64 = 0x6275_6464_6c6f_616e;

pub const CHUNKS_MARK: u64 = 0x6275_6464_6368_6e6b;

pub const INDEX_MARK: u64 = 0x6275_6464_696e_6478;

pub const ROOM_MARK: u64 = 0x6275_6464_726f_6f6d;

pub const LEVELS_AT: usize = 1;

pub const HEAD_WORDS: usize = 2;
// Chunk places ever used, in the chunks' own record.
pub const CHUNK_PLACES_AT: usize = 1;
// Of a chunk.
pub const CHUNK_WORDS: usize = 2;

pub const MEMORY_AT: usize = 2;

pub const CHUNK_SIZE_AT: usize = 3;
// Of a chunk place in the tree.
pub const PLACE_WORDS: usize = 8;

pub const TOP_AT: usize = 0;

pub const AFTER_AT: usize = 1;
// Columns behind the entries of the index: for each record of the loans its node.
pub const COLUMNS: usize = 1;
// The tag of a pair: its place is vacant, both its nodes are taken, or which of them is ready; specs/Nodes has the same names.
pub const VACANT: u64 = 0;

pub const EXHAUSTED: u64 = 1;

pub const LEFT_READY: u64 = 2;

pub const RIGHT_READY: u64 = 3;
// The word of a node that is free.
pub const FREE_WORD: u64 = 0;
