// A loan struck out of the book, its node climbing; and a chunk that is wholly free going.
ghost use Rattle.std.specs.Prelude.{◌≡◌, [], set};
ghost use Rattle.counter.specs.InTable.{BuddyIn};
ghost use Rattle.words.specs.Words.{cell_of};
ghost use Rattle.buddy_rules.specs.Tables.{tables, chunk_words, chunk_size_at};
ghost use Rattle.book_rules.specs.Book.{struck, struck_index};
ghost use Rattle.buddy_outcomes.specs.Return.{climb_for, vacated_tree};
ghost use Rattle.buddy_moves.specs.Ready.{Backs};

use buddy_rules::{AFTER_AT, CHUNK_SIZE_AT, CHUNK_WORDS, LEVELS_AT, PLACE_WORDS};
use counter::{Block, BuddySettings};

// The chunk at c is gone, and its place the one vacated last.
pub fn vacate(s: BuddySettings, c: u64, chunks: &mut [u64], tree: &mut [u64])
    requires { BuddyIn s }
    ensures chunks_after { chunks.new ≡ set chunks.old (cell_of chunk_size_at chunk_words c) 0 }
    ensures tree_after { tree.new ≡ vacated_tree s c tree.old }
{
    let at = buddy_levels::chunks_from(s.pairs);
    let last = words::word(tree, at);
    words::put_cell(chunks, CHUNK_SIZE_AT, CHUNK_WORDS, c as usize, 0);
    words::put_cell(
        tree,
        at + (PLACE_WORDS + AFTER_AT),
        PLACE_WORDS,
        c as usize,
        last,
    );
    words::put(tree, at, slabs::record_of(c));
}

// The loan that the word at `at` of the index leads to goes, and its node climbs. Tells whether the chunk is wholly free then, and
// has to go with it.
pub fn strike_out(
    s: BuddySettings,
    b: Block,
    at: usize,
    head: &[u64],
    loans: &mut [u64],
    index: &mut [u64],
    tree: &mut [u64],
) -> bool
    requires { Backs s b at (tables head.now loans.old [] index.old tree.old) }
    ensures value { result ≡ (climb_for s b at (tables head.now [] [] index.old tree.old)).freed }
    ensures tree_after { tree.new ≡ (climb_for s b at (tables head.now [] [] index.old tree.old)).room }
    ensures loans_after { (loans.new ≡ struck at index.old loans.old) × (index.new ≡ struck_index at index.old) }
{
    let own = s.store;
    let levels = head[LEVELS_AT] as usize;
    let level = rounding::level(b.size, s.minimal) as usize;
    let p = slabs::place_of(index[at]);
    let from = buddy_levels::node_at(own.loans, p);
    let node = index[from];
    book::strike(loans, index, at, p);
    buddy_moves::climb(tree, s.pairs, level, levels - level, node)
}
