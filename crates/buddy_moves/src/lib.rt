// What a return and a loan do to a buddy store's tree: the climb and the split, level by level. What they and the code above them
// ask of its tables a passed gate and a decided call give: proofs/ shows it.
#![tactic(auto)]

ghost use Rattle.std.specs.Prelude.{◌≡◌, length, set, ◌+◌, ◌≤◌, ◌<◌};
ghost use Rattle.counter.specs.Limits.{levels_most, pairs_most, loans_most};
ghost use Rattle.slabs.specs.Slab.{nowhere};
ghost use Rattle.buddy_trees.specs.Trees.{up};
ghost use Rattle.buddy_rules.specs.Nodes.{free_word, other, pair_of, word};
ghost use Rattle.buddy_rules.specs.Level.{ent_of, pair_cell, side_at, pair_taken, added, level_start};
ghost use Rattle.buddy_rules.specs.Moves.{side_in, climbed, left_next, split_down, split_chunk};
ghost use Rattle.buddy_levels.specs.Stands.{Stands};
ghost use Rattle.buddy_moves.specs.Footing.{Footing};
ghost use Rattle.buddy_moves.specs.Roomy.{Roomy};

use buddy_levels::{Side, UP_AT, level_from};
use buddy_rules::FREE_WORD;
use slabs::NOWHERE;

// The word of node n's twin.
fn twin_word(tree: &[u64], base: usize, n: u64) -> u64
    requires { Stands base (pair_of n) tree.now }
    ensures { result ≡ word (other (side_in n)) (ent_of base tree.now (pair_of n)) }
{
    let side = buddy_levels::other(buddy_levels::side_in(n));
    let p = buddy_levels::pair_of(n);
    buddy_levels::field_in(tree, base, buddy_levels::word_at(side), p)
}

// Node n of a level was given back. While its twin is free its pair goes, and the node above is given back in turn; at most
// `levels` times. Tells whether that was all of the chunk.
pub fn climb(tree: &mut [u64], pairs: usize, level: usize, levels: usize, node: u64) -> bool
    requires pairs_le_pairs_most { (pairs ≤ pairs_most) × (level + levels ≤ levels_most) }
    requires footing { Footing pairs levels level node tree.old }
    ensures value { result ≡ (climbed pairs levels level node tree.old).freed }
    ensures tree_after { tree.new ≡ (climbed pairs levels level node tree.old).room }
{
    let mut n = node;
    for l in level..level + levels {
        if n == NOWHERE {
            return true;
        }
        let base = level_from(pairs, l);
        let p = buddy_levels::pair_of(n);
        if twin_word(tree, base, n) != FREE_WORD {
            buddy_levels::ready_pair(tree, base, p, buddy_levels::side_in(n));
            return false;
        }
        n = buddy_levels::field_in(tree, base, UP_AT, p);
        buddy_levels::drop_pair(tree, base, p);
    }
    true
}

// Node n of the level at `base` has the word w from now on.
fn put_word(tree: &mut [u64], base: usize, n: u64, w: u64)
    requires { Stands base (pair_of n) tree.old }
    ensures { tree.new ≡ set tree.old (pair_cell base (side_at (side_in n)) (pair_of n)) w }
{
    let side = buddy_levels::side_in(n);
    let p = buddy_levels::pair_of(n);
    buddy_levels::put_field_in(tree, base, buddy_levels::word_at(side), p, w);
}

// A node `above` levels over the asked level is split down to it, always keeping the left half, which is lent: its word says
// which loan it is. Tells that node. A struct of its numbers would be made for this one call and taken apart in every clause.
pub fn split_down(
    tree: &mut [u64],
    pairs: usize,
    level: usize,
    above: usize,
    chunk: u64,
    offset: u64,
    loan: u64,
    node: u64,
) -> u64
    requires pairs_le_pairs_most { (pairs ≤ pairs_most) × (level + above < levels_most) × (loan < loans_most) }
    requires roomy { Roomy pairs level chunk offset node above tree.old }
    requires node_bound { (pair_of node < pairs) × (level_start pairs levels_most ≤ length tree.old) }
    ensures value { result ≡ (split_down pairs level chunk offset loan node above tree.old).node }
    ensures tree_after { tree.new ≡ (split_down pairs level chunk offset loan node above tree.old).room }
{
    let mut n = node;
    for d in (0..above).rev() {
        let base = level_from(pairs, level + d);
        let p = buddy_levels::add_pair(tree, base, chunk, offset, n, FREE_WORD);
        put_word(
            tree,
            level_from(pairs, level + d + 1),
            n,
            buddy_levels::split_word(p),
        );
        n = buddy_levels::node_of(p, Side::Left);
    }
    put_word(
        tree,
        level_from(pairs, level),
        n,
        buddy_levels::loan_word(loan),
    );
    n
}

// A new chunk's own pair, `above` levels over the asked one, and its left node split down and lent. Tells that node.
pub fn split_chunk(
    tree: &mut [u64],
    pairs: usize,
    level: usize,
    above: usize,
    chunk: u64,
    loan: u64,
) -> u64
    requires pairs_le_pairs_most { (pairs ≤ pairs_most) × (level + above < levels_most) × (loan < loans_most) × ((pair_taken (level_start pairs (up above level)) tree.old).place < pairs) × (level_start pairs levels_most ≤ length tree.old) }
    requires roomy { Roomy pairs level chunk 0 (left_next pairs (up above level) tree.old) above (added (level_start pairs (up above level)) chunk 0 nowhere free_word tree.old) }
    ensures value { result ≡ (split_chunk pairs level chunk loan above tree.old).node }
    ensures tree_after { tree.new ≡ (split_chunk pairs level chunk loan above tree.old).room }
{
    let base = level_from(pairs, level + above);
    let p = buddy_levels::add_pair(tree, base, chunk, 0, NOWHERE, FREE_WORD);
    split_down(
        tree,
        pairs,
        level,
        above,
        chunk,
        0,
        loan,
        buddy_levels::node_of(p, Side::Left),
    )
}
