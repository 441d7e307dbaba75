// A store's five tables and the release list in one row of words, so that all of it is copied and compared at once.
// Each has its room in the row, of which as much is lent as the settings ask for, and the last has no more.
ghost use Rattle.std.specs.Prelude.{◌≡◌, ◌≤◌, Some, length, slice_get};
ghost use Rattle.damage_parts.specs.Numbers.{numbered_table, tables};
ghost use Rattle.words.specs.Words.{at_most};

use book::ENTRY_WORDS;
use buddy_levels::{HEADER_WORDS, OWN_WORDS, PAIR_WORDS, USED_AT};
use buddy_rules::{LEVELS_AT, PLACE_WORDS};
use counter::{Block, BuddySettings, LEVELS_MOST};
use freelist_rules::{COLUMNS, REGION_WORDS};
use reel::{Lengths, Limits, Settings};
use store_rules::{CHUNK_AT, LOAN_WORDS, OFFSET_AT, PLACES_AT, SERIAL_AT, SIZE_AT};

// the greatest limits of a store that is tried
pub const LOANS: usize = 8;

pub const CHUNKS: usize = 4;

pub const PAIRS: usize = 4;

// the words of the longest table of both engines at these limits, a free list's index
pub const ROOM: usize = ENTRY_WORDS + ENTRY_WORDS * LOANS + COLUMNS * (LOANS + 1);

// of the engine's own table: a buddy store's tree, which is longer than the regions, and four words for each loan
pub const OWN_ROOM: usize = OWN_WORDS
    + (HEADER_WORDS + PAIR_WORDS * PAIRS) * (LEVELS_MOST as usize)
    + PLACE_WORDS
    + PLACE_WORDS * CHUNKS
    + REGION_WORDS * LOANS;

// where each stands
pub const HEAD_AT: usize = 0;

pub const LOANS_AT: usize = ROOM;

pub const CHUNKS_AT: usize = 2 * ROOM;

pub const INDEX_AT: usize = 3 * ROOM;

pub const LIST_AT: usize = 4 * ROOM;

pub const OWN_AT: usize = 5 * ROOM;

// a row at the greatest limits
pub const ROW_MOST: usize = OWN_AT + OWN_ROOM;

// Whether the row has room for the store's tables.
pub fn fits(settings: Settings) -> bool {
    let s = reel::store_of(settings);
    (s.loans <= LOANS) & (s.chunks <= CHUNKS) & (pairs_of(settings) <= PAIRS)
}

fn pairs_of(settings: Settings) -> usize {
    match settings {
        Settings::FreeList(_) => 0,
        Settings::Buddy(s) => s.pairs,
    }
}

// How many words of each table the store is lent.
pub fn lent_words(settings: Settings) -> Lengths
    ensures head_bound { result.head ≤ 45 }
    ensures loans_bound { result.loans ≤ 45 }
    ensures chunks_bound { result.chunks ≤ 45 }
    ensures index_bound { result.index ≤ 45 }
    ensures own_bound { result.own ≤ 1360 }
{
    let most = Limits {
        loans: LOANS,
        chunks: CHUNKS,
        pairs: PAIRS,
    };
    reel::table_lengths(settings, most)
}

// How many words of the row the store takes up: the last is the engine's own table.
pub fn row_words(settings: Settings) -> usize {
    let lengths = lent_words(settings);
    OWN_AT + lengths.own
}

// A store's tables, in the order of the numbers that are printed; the last is the engine's own.
#[derive(Clone, Copy, PartialEq, Eq)]
pub enum Table {
    Head,
    Loans,
    Chunks,
    Index,
    Own,
}

pub const TABLES: [Table; 5] = [
    Table::Head,
    Table::Loans,
    Table::Chunks,
    Table::Index,
    Table::Own,
];

// A table is handed on by its number, as a call is (cases.rt): past the last it is taken for the last.
impl From<u64> for Table {
    ghost from_gives = { λ n t. t ≡ numbered_table n };

    #[tactic(auto, unfolding(crate::specs::Numbers::numbered_table))]
    fn from(n: u64) -> Table {
        TABLES.get(n as usize).copied().unwrap_or(Table::Own)
    }
}

impl From<Table> for u64 {
    ghost from_gives = { λ t n. slice_get tables n ≡ Some t };

    fn from(table: Table) -> u64 {
        table as u64
    }
}

// Where a table stands in the row, and how many of its words the store is lent.
pub fn table_at(table: u64) -> usize
    ensures { result ≤ at_most }
{
    match Table::from(table) {
        Table::Head => HEAD_AT,
        Table::Loans => LOANS_AT,
        Table::Chunks => CHUNKS_AT,
        Table::Index => INDEX_AT,
        Table::Own => OWN_AT,
    }
}

pub fn table_words(settings: Settings, table: u64) -> usize {
    let lengths = lent_words(settings);
    match Table::from(table) {
        Table::Head => lengths.head,
        Table::Loans => lengths.loans,
        Table::Chunks => lengths.chunks,
        Table::Index => lengths.index,
        Table::Own => lengths.own,
    }
}

// A level's own words and each of its pairs are rows of as many words; how many rows a level has, in a store that fits.
fn level_rows(s: BuddySettings) -> usize
    ensures { 1 ≤ result }
{
    1 + s.pairs.min(PAIRS)
}

// Whether a word of a buddy store's tree is damaged: those in use, and some past them. In use are what stands before and after the
// levels, and of each level that there is its own words and its pairs' up to the last place used. Past them are all pairs of the
// lowest level, and the own words of the first level that there isn't.
fn is_tried_in_tree(s: BuddySettings, image: &[u64], word: usize) -> bool {
    let rows = level_rows(s);
    let row = (word / PAIR_WORDS).wrapping_sub(1);
    let level = (row / rows) as u64;
    let pair = row % rows;
    let first = row.wrapping_sub(pair);
    let used = words::cell(image, OWN_AT + OWN_WORDS + USED_AT, PAIR_WORDS, first);
    let levels = words::word(image, HEAD_AT + LEVELS_AT);
    ((LEVELS_MOST as u64) <= level)
        | ((level < levels) & ((pair as u64) <= used))
        | (level == 0)
        | ((level == levels) & (pair == 0))
}

pub fn is_tried(settings: Settings, image: &[u64], table: u64, word: usize) -> bool {
    match settings {
        Settings::FreeList(_) => true,
        Settings::Buddy(s) => (Table::from(table) != Table::Own) | is_tried_in_tree(s, image, word),
    }
}

// A table, or the list, taken out of the row, from a place on.
pub fn table_from(image: &[u64], from: usize) -> [u64; ROOM]
    requires { from ≤ at_most }
    ensures { length result ≡ 45 }
{
    let mut table = [0u64; ROOM];
    load(&mut table, image, from, ROOM);
    table
}

// The first n words of a table.
fn load(table: &mut [u64], image: &[u64], from: usize, n: usize)
    requires { from ≤ at_most }
{
    for i in 0..n {
        words::put(table, i, words::cell(image, from, 1, i));
    }
}

// The engine's own table likewise, of which so many words are lent.
pub fn own_from(image: &[u64], n: usize) -> [u64; OWN_ROOM]
    ensures { length result ≡ 1360 }
{
    let mut own = [0u64; OWN_ROOM];
    load(&mut own, image, OWN_AT, n);
    own
}

// A row that holds what the store takes up of this one.
pub fn copy_of(settings: Settings, image: &[u64]) -> [u64; ROW_MOST]
    ensures { length result ≡ 1585 }
{
    let n = row_words(settings);
    let mut row = [0u64; ROW_MOST];
    load(&mut row, image, 0, n);
    row
}

// Put back into the row.
fn keep(image: &mut [u64], from: usize, table: &[u64], n: usize)
    requires { from ≤ at_most }
{
    for i in 0..n {
        words::put_cell(image, from, 1, i, words::word(table, i));
    }
}

// All of them put back.
pub fn keep_all(
    image: &mut [u64],
    head: &[u64; ROOM],
    loans: &[u64; ROOM],
    chunks: &[u64; ROOM],
    index: &[u64; ROOM],
    list: &[u64; ROOM],
    own: &[u64; OWN_ROOM],
    own_words: usize,
) {
    keep(image, HEAD_AT, head, ROOM);
    keep(image, LOANS_AT, loans, ROOM);
    keep(image, CHUNKS_AT, chunks, ROOM);
    keep(image, INDEX_AT, index, ROOM);
    keep(image, LIST_AT, list, ROOM);
    keep(image, OWN_AT, own, own_words);
}

// Whether two rows have the same first n words.
pub fn is_same(x: &[u64], y: &[u64], n: usize) -> bool {
    (0..n).all(|i| words::word(x, i) == words::word(y, i))
}

// The loan at a place, as the block that was lent.
fn block_at(image: &[u64], place: usize) -> Block {
    Block {
        serial: words::cell(image, LOANS_AT + SERIAL_AT, LOAN_WORDS, place),
        chunk: words::cell(image, LOANS_AT + CHUNK_AT, LOAN_WORDS, place),
        offset: words::cell(image, LOANS_AT + OFFSET_AT, LOAN_WORDS, place),
        size: words::cell(image, LOANS_AT + SIZE_AT, LOAN_WORDS, place),
    }
}

// The block at the last place with a loan; where the store has none, what the first place holds.
pub fn held_block(image: &[u64]) -> Block {
    let places = words::word(image, LOANS_AT + PLACES_AT);
    let mut held = block_at(image, 0);
    for i in 0..LOANS {
        let b = block_at(image, i);
        if ((i as u64) < places) & (0 < b.size) {
            held = b;
        }
    }
    held
}
