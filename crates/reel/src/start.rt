// What a store begins with: a fresh account, and tables of the lengths that its settings ask for.
ghost use Rattle.std.specs.Prelude.{◌+◌, ◌*◌, ◌≤◌};

use crate::settings::store_of;
use counter::{Account, HEAPS, Heap};
use tape::Settings;

// Nothing is used of the heap with this number, and the others have no room.
pub fn fresh_account(heap: usize, size: u64, objects: u32) -> Account {
    let bare = Account {
        heaps: [Heap::default(); HEAPS],
        objects,
        order: None,
    };
    let empty = Heap {
        size,
        ..Heap::default()
    };
    bare.settled(heap, empty, objects, None)
}

// How many words of each table a store is lent; `own` is a free list's regions or a buddy store's tree.
#[derive(Clone, Copy)]
pub struct Lengths {
    pub head: usize,
    pub loans: usize,
    pub chunks: usize,
    pub index: usize,
    pub own: usize,
}

// The greatest limits that tables are lent for.
#[derive(Clone, Copy)]
pub struct Limits {
    pub loans: usize,
    pub chunks: usize,
    pub pairs: usize,
}

fn free_list_lengths(loans: usize, chunks: usize) -> Lengths
    requires loans_bound { loans ≤ 512 }
    requires chunks_bound { chunks ≤ 64 }
    ensures head_bound { result.head ≤ 2 }
    ensures loans_bound_2 { result.loans ≤ 4 + 4 * loans }
    ensures chunks_bound_2 { result.chunks ≤ 3 + 3 * chunks }
    ensures index_bound { result.index ≤ 5 + 5 * loans }
    ensures own_bound { result.own ≤ 4 + 4 * (loans + chunks) }
{
    Lengths {
        head: freelist_rules::HEAD_WORDS,
        loans: store_rules::LOAN_WORDS + store_rules::LOAN_WORDS * loans,
        chunks: freelist_rules::CHUNK_WORDS + freelist_rules::CHUNK_WORDS * chunks,
        index: book::ENTRY_WORDS
            + book::ENTRY_WORDS * loans
            + freelist_rules::COLUMNS * (loans + 1),
        own: freelist_rules::REGION_WORDS + freelist_rules::REGION_WORDS * (loans + chunks),
    }
}

fn buddy_lengths(loans: usize, chunks: usize, pairs: usize) -> Lengths
    requires loans_bound { loans ≤ 512 }
    requires chunks_bound { chunks ≤ 64 }
    requires pairs_bound { pairs ≤ 256 }
    ensures head_bound { result.head ≤ 2 }
    ensures loans_bound_2 { result.loans ≤ 4 + 4 * loans }
    ensures chunks_bound_2 { result.chunks ≤ 3 + 3 * chunks }
    ensures index_bound { result.index ≤ 5 + 5 * loans }
    ensures own_bound { result.own ≤ 256 * (1 + pairs) + 16 + 4 * loans + 8 * chunks }
{
    Lengths {
        head: buddy_rules::HEAD_WORDS,
        loans: store_rules::LOAN_WORDS + store_rules::LOAN_WORDS * loans,
        chunks: buddy_rules::CHUNK_WORDS + buddy_rules::CHUNK_WORDS * chunks,
        index: book::ENTRY_WORDS + book::ENTRY_WORDS * loans + buddy_rules::COLUMNS * (loans + 1),
        own: buddy_levels::tree_words(pairs, chunks),
    }
}

// No more than so many loans, chunks and pairs need, whatever the settings say: past the limits set-up refuses them.
pub fn table_lengths(settings: Settings, most: Limits) -> Lengths
    requires loans_bound { most.loans ≤ 512 }
    requires chunks_bound { most.chunks ≤ 64 }
    requires pairs_bound { most.pairs ≤ 256 }
    ensures head_bound { result.head ≤ 2 }
    ensures loans_bound_2 { result.loans ≤ 4 + 4 * most.loans }
    ensures chunks_bound_2 { result.chunks ≤ 3 + 3 * most.chunks }
    ensures index_bound { result.index ≤ 5 + 5 * most.loans }
    ensures own_bound { result.own ≤ 256 * (1 + most.pairs) + 16 + 4 * most.loans + 8 * most.chunks }
{
    let store = store_of(settings);
    let loans = store.loans.min(most.loans);
    let chunks = store.chunks.min(most.chunks);
    match settings {
        Settings::FreeList(_) => free_list_lengths(loans, chunks),
        Settings::Buddy(s) => buddy_lengths(loans, chunks, s.pairs.min(most.pairs)),
    }
}
