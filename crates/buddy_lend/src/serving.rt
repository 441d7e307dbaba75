// A chunk added at the place that is taken next, and a block lent from its left end.
ghost use Rattle.std.specs.Prelude.{◌≡◌, [], ◌+◌, ◌-◌, ◌≤◌, ◌<◌, length, get_or, set};
ghost use Rattle.counter.specs.InTable.{BuddyIn};
ghost use Rattle.counter.specs.Limits.{levels_most, pairs_most};
ghost use Rattle.words.specs.Words.{cell_of};
ghost use Rattle.slabs.specs.Slab.{record_of};
ghost use Rattle.store_rules.specs.Loans.{given_at, places_at};
ghost use Rattle.buddy_rules.specs.Nodes.{split_word};
ghost use Rattle.buddy_rules.specs.Level.{pair_taken};
ghost use Rattle.buddy_rules.specs.Tables.{tables, levels_at, chunk_places_at, level_from, chunks_from, place_at, top_at, place_words, chunk_words, memory_at, chunk_size_at};
ghost use Rattle.buddy_levels.specs.Seen.{part_settings};
ghost use Rattle.store_rules.specs.Loans as Loans;
ghost use Rattle.book_rules.specs.Book.{taken_of};
ghost use Rattle.buddy_outcomes.specs.Ask.{chunk_taken};
ghost use Rattle.buddy_outcomes.specs.Deliver.{chunk_tables, served_tables};
ghost use Rattle.buddy_moves.specs.Ready.{Serves};

use buddy_rules::{
    CHUNK_PLACES_AT, CHUNK_SIZE_AT, CHUNK_WORDS, LEVELS_AT, MEMORY_AT, PLACE_WORDS, TOP_AT,
};
use counter::BuddySettings;
use slabs::Taken;
use store_rules::{GIVEN_AT, Loan};

// So many chunk places are used, and a chunk's two words.
fn put_chunk(chunks: &mut [u64], places: u64, c: u64, memory: u64, bytes: u64)
    ensures { chunks.new ≡ set (set (set chunks.old chunk_places_at places) (cell_of memory_at chunk_words c) memory) (cell_of chunk_size_at chunk_words c) bytes }
{
    words::put(chunks, CHUNK_PLACES_AT, places);
    words::put_cell(chunks, MEMORY_AT, CHUNK_WORDS, c as usize, memory);
    words::put_cell(chunks, CHUNK_SIZE_AT, CHUNK_WORDS, c as usize, bytes);
}

// The top node of the chunk at c is split into the pair p from now on, and the place vacated last is this.
fn put_top(pairs: usize, c: u64, p: u64, vacant: u64, tree: &mut [u64])
    requires { (pairs ≤ pairs_most) × (p < pairs_most) }
    ensures { tree.new ≡ set (set tree.old (chunks_from (part_settings 0 pairs 0)) (record_of vacant)) (cell_of (place_at (part_settings 0 pairs 0) top_at) place_words c) (split_word p) }
{
    let at = buddy_levels::chunks_from(pairs);
    words::put(tree, at, slabs::record_of(vacant));
    words::put_cell(
        tree,
        at + (PLACE_WORDS + TOP_AT),
        PLACE_WORDS,
        c as usize,
        buddy_levels::split_word(p),
    );
}

// Memory of so many bytes is the chunk at this place; its top node is split into the pair that the top level takes next.
fn add_chunk(
    s: BuddySettings,
    chunk: Taken,
    memory: u64,
    bytes: u64,
    head: &[u64],
    chunks: &mut [u64],
    tree: &mut [u64],
)
    requires { BuddyIn s × (0 < get_or head.now levels_at 0) × (get_or head.now levels_at 0 ≤ levels_most) × ((pair_taken (level_from s (get_or head.now levels_at 0 - 1)) tree.old).place < s.pairs) × (chunk ≡ chunk_taken s (tables head.now [] chunks.old [] tree.old)) × (chunks_from s ≤ length tree.old) }
    ensures { tables head.now [] chunks.new [] tree.new ≡ chunk_tables s memory bytes (tables head.now [] chunks.old [] tree.old) }
{
    let levels = words::word(head, LEVELS_AT);
    let after = chunk.slab;
    let top = buddy_levels::pair_taken(
        tree,
        buddy_levels::level_from(s.pairs, (levels - 1) as usize),
    );
    put_chunk(chunks, after.places, chunk.place, memory, bytes);
    put_top(s.pairs, chunk.place, top.place, after.vacant, tree);
}

// The block is of this size and level; loan and chunk take these places.
pub fn serve(
    s: BuddySettings,
    size: u64,
    level: usize,
    loan: Taken,
    chunk: Taken,
    memory: u64,
    bytes: u64,
    head: &[u64],
    loans: &mut [u64],
    chunks: &mut [u64],
    index: &mut [u64],
    tree: &mut [u64],
) -> Loan
    requires { Serves s level memory bytes (tables head.now loans.old chunks.old index.old tree.old) × (loan ≡ taken_of (get_or loans.old places_at 0) index.old) × (chunk ≡ chunk_taken s (tables head.now [] chunks.old [] tree.old)) }
    ensures value { result ≡ Loans.loan (get_or loans.old given_at 0 + 1) (chunk_taken s (tables head.now [] chunks.old [] tree.old)).place 0 size }
    ensures tree_after { tables head.now loans.new chunks.new index.new tree.new ≡ served_tables s size level memory bytes (tables head.now loans.old chunks.old index.old tree.old) }
{
    let levels = words::word(head, LEVELS_AT) as usize;
    add_chunk(s, chunk, memory, bytes, head, chunks, tree);
    let l = Loan {
        serial: words::word(loans, GIVEN_AT) + 1,
        chunk: chunk.place,
        offset: 0,
        size,
    };
    let above = levels - level - 1;
    let n = buddy_moves::split_chunk(tree, s.pairs, level, above, l.chunk, loan.place);
    let own = s.store;
    book::enter_at(loans, index, own.loans, loan, l);
    crate::booking::put_node(s, loan.place, n, index);
    l
}
