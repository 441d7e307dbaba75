// The walk down a chunk, as 01 has it: the node check calls the pair check, and that the node check on both halves. It counts down
// what it meets of the pairs in use and the loans. The tests before it have shown that the tables have the words of every place ever
// used, as its view says. A count that is torn is NOWHERE, as left_node has it: one number goes down the walk and comes back, and an
// Option of it would have to say beside that it is never that number.
ghost use Rattle.std.specs.Prelude.{◌≡◌, [], ℕ, ◌+◌, ◌*◌, ◌^◌, ◌≤◌, ◌<◌, eqb};
ghost use Rattle.counter.specs.Limits.{levels_most, minimal_bits};
ghost use Rattle.buddy_trees.specs.Trees.{bytes};
ghost use Rattle.buddy_rules.specs.Nodes.{free_word, tag_of};
ghost use Rattle.buddy_levels.specs.Pairs.{ent_from};
ghost use Rattle.buddy_rules.specs.Test.{entry_ok, left_node};
ghost use Rattle.buddy_levels.specs.Seen.{part_settings, loan_part};
ghost use Rattle.buddy_walk.specs.Views.{walk_settings, walk_tables};
ghost use Rattle.buddy_walk.specs.Walks.{left_leaf, left_pair};

use crate::view::WalkView;
use buddy_levels::{Pair, Side, USED_AT};
use buddy_rules::{EXHAUSTED, FREE_WORD, LEFT_READY, RIGHT_READY};
use slabs::NOWHERE;
use store_rules::{CHUNK_AT, LOAN_WORDS, OFFSET_AT, PLACES_AT, SIZE_AT};

// Of so many pairs and loans still to be met, how many are left when the loan of this node, which is so long, has been met: NOWHERE
// where it is not there, or none was left. A vacant place has the size 0, and no node has.
fn left_at_loan(
    size: u64,
    chunk: u64,
    offset: u64,
    node: u64,
    place: u64,
    left: u64,
    w: &WalkView<'_>,
) -> u64
    ensures { (level : ℕ) → size ≡ bytes w.now.settings.minimal level → result ≡ left_leaf (walk_settings w.now) (walk_tables w.now) place chunk level offset node left }
{
    let loans = w.loans;
    if loans[PLACES_AT] <= place {
        return NOWHERE;
    }
    let i = LOAN_WORDS * place as usize;
    let at = buddy_levels::node_at(w.settings.store.loans, place);
    let stands = (loans[CHUNK_AT + i] == chunk)
        & ((loans[OFFSET_AT + i] == offset) & (loans[SIZE_AT + i] == size));
    if (0 < left) & (stands & (w.index[at] == node)) {
        left - 1
    } else {
        NOWHERE
    }
}

// The tag of a pair whose left and right nodes have these words.
fn tag_of(left: u64, right: u64) -> u64
    ensures { result ≡ tag_of (eqb left free_word) (eqb right free_word) }
{
    if left == FREE_WORD {
        return LEFT_READY;
    }
    if right == FREE_WORD {
        RIGHT_READY
    } else {
        EXHAUSTED
    }
}

// Whether a pair is that of this node, and ready where one of its nodes is free; not both, since they would be joined.
fn is_entry(e: Pair, chunk: u64, offset: u64, node: u64) -> bool
    ensures { result ≡ entry_ok (part_settings 0 0 0) (loan_part [] [] []) (ent_from e) chunk offset node }
{
    let free = (e.left == FREE_WORD) & (e.right == FREE_WORD);
    let stands = (e.chunk == chunk) & ((e.off == offset) & (e.up == node));
    !free & ((e.tag == tag_of(e.left, e.right)) & stands)
}

// The same when a node, which is so long and whose word this is, has been walked: free, on loan, or split into a pair that is right.
#[cycle(left_at_node_left_at_pair)]
pub fn left_at_node(
    size: u64,
    chunk: u64,
    offset: u64,
    node: u64,
    word: u64,
    left: u64,
    level: u64,
    w: &WalkView<'_>,
) -> u64
    requires { (level ≤ w.now.levels) × (offset + size ≤ 2 ^ (minimal_bits + levels_most)) }
    ensures { size ≡ bytes w.now.settings.minimal level → result ≡ left_node (walk_settings w.now) (walk_tables w.now) level chunk offset node word left }
{
    if word == FREE_WORD {
        return left;
    }
    if buddy_levels::says_loan(word) {
        let place = buddy_levels::loan_said(word);
        return left_at_loan(size, chunk, offset, node, place, left, w);
    }
    if level == 0 {
        return NOWHERE;
    }
    let p = buddy_levels::pair_said(word);
    left_at_pair(size / 2, chunk, offset, node, p, left, level - 1, w)
}

// The same when the pair p, into which a node of the level above is split, and both its halves, each so long, have been walked; the
// right half last, so that its call is a jump.
#[cycle(left_at_node_left_at_pair)]
fn left_at_pair(
    size: u64,
    chunk: u64,
    offset: u64,
    node: u64,
    p: u64,
    left: u64,
    level: u64,
    w: &WalkView<'_>,
) -> u64
    requires { (level < w.now.levels) × (offset + 2 * size ≤ 2 ^ (minimal_bits + levels_most)) }
    ensures { size ≡ bytes w.now.settings.minimal level → result ≡ left_pair (walk_settings w.now) (walk_tables w.now) level chunk offset node p left }
{
    let tree = w.tree;
    let base = buddy_levels::level_from(w.settings.pairs, level as usize);
    if tree[base + USED_AT] <= p {
        return NOWHERE;
    }
    let e = buddy_levels::standing_pair(tree, base, p);
    if !((0 < left) & is_entry(e, chunk, offset, node)) {
        return NOWHERE;
    }
    let rest = left_at_node(
        size,
        chunk,
        offset,
        buddy_levels::node_of(p, Side::Left),
        e.left,
        left - 1,
        level,
        w,
    );
    if rest == NOWHERE {
        return NOWHERE;
    }
    left_at_node(
        size,
        chunk,
        offset + size,
        buddy_levels::node_of(p, Side::Right),
        e.right,
        rest,
        level,
        w,
    )
}
