// A block taken back, and its chunk gone where that was all of it.
ghost use Rattle.std.specs.Prelude.{◌≡◌};
ghost use Rattle.buddy_rules.specs.Tables.{tables};
ghost use Rattle.buddy_outcomes.specs.Return.{given_tables};
ghost use Rattle.buddy_moves.specs.Ready.{Backs};
ghost use Rattle.buddy_back.specs.Frees.{freed_by, freed_list};

use buddy_rules::{CHUNK_SIZE_AT, CHUNK_WORDS, MEMORY_AT};
use counter::{Block, BuddySettings};

// So many chunks went, of so many bytes in all.
#[derive(Clone, Copy)]
pub struct Freed {
    pub count: u64,
    pub bytes: u64,
}

// The block that the word at `at` of the index leads to. The memory number of its chunk, where that goes, then stands at the front of
// `list`.
pub fn take_back(
    s: BuddySettings,
    b: Block,
    at: usize,
    head: &[u64],
    loans: &mut [u64],
    chunks: &mut [u64],
    index: &mut [u64],
    tree: &mut [u64],
    list: &mut [u64],
) -> Freed
    requires { Backs s b at (tables head.now loans.old chunks.old index.old tree.old) }
    ensures value { result ≡ freed_by s b at (tables head.now loans.old chunks.old index.old tree.old) }
    ensures tree_after { tables head.now loans.new chunks.new index.new tree.new ≡ given_tables s b at (tables head.now loans.old chunks.old index.old tree.old) }
    ensures list_after { list.new ≡ freed_list s b at (tables head.now loans.old chunks.old index.old tree.old) list.old }
{
    if crate::backing::strike_out(s, b, at, head, loans, index, tree) {
        let memory = words::cell(chunks, MEMORY_AT, CHUNK_WORDS, b.chunk as usize);
        let bytes = words::cell(chunks, CHUNK_SIZE_AT, CHUNK_WORDS, b.chunk as usize);
        crate::backing::vacate(s, b.chunk, chunks, tree);
        words::put(list, 0, memory);
        return Freed { count: 1, bytes };
    }
    Freed { count: 0, bytes: 0 }
}
