// A level of a buddy store's pairs in words, which begin at `base` of a lent table: its ring of ready pairs and its vacant
// places. What is done to it is defined for all words; what a gate stands before asks that the pairs it touches are there, and
// looks at no bound.
#![tactic(auto)]

mod good;
mod nodes;
mod pairs;
mod shape;
mod sides;

ghost use Rattle.std.specs.Prelude.{◌≡◌, ◌+◌, ◌<◌, ◌≤◌, slice_index, slice_set};
ghost use Rattle.buddy_rules.specs.Nodes.{free_word, right_ready};
ghost use Rattle.buddy_rules.specs.Levels.{side_of};
ghost use Rattle.ring_rules.specs.Ring.{alone};
ghost use Rattle.buddy_levels.specs.Sides.{side_said};
ghost use Rattle.buddy_levels.specs.Stands.{Stands, Leaves, Joins, Takes};
ghost use Rattle.buddy_rules.specs.Level.{base_most, pair_words, tag_at, chunk_at, off_at, left_at, right_at, next_at, prev_at, up_at, ring_at, field_at, pair_cell, ring_head, leaves, joins, pair_taken, dropped, backed, acquired, entered, added, fresh_level};

// A tag is a word of a lent table, so it stays a number.
use buddy_rules::{EXHAUSTED, FREE_WORD, RIGHT_READY, VACANT};
pub use good::{PairCounts, test_level};
pub use nodes::{loan_said, loan_word, pair_of, pair_said, says_loan, split_word};
pub use pairs::{Pair, pair_at, standing_pair};
pub use shape::{chunks_from, level_from, node_at, node_bytes, tree_words};
pub use sides::{Side, node_of, other, side_in, side_of, word_at};
use slabs::{Slab, Taken};

// Where the words stand; specs/Level has the same names.
pub const HEADER_WORDS: usize = 8;
// Of the table itself, before the first level.
pub const OWN_WORDS: usize = 8;

pub const RING_AT: usize = 0;

pub const USED_AT: usize = 1;

pub const VACATED_AT: usize = 2;

pub const PAIR_WORDS: usize = 8;

pub const TAG_AT: usize = 0;

pub const CHUNK_AT: usize = 1;

pub const OFF_AT: usize = 2;

pub const LEFT_AT: usize = 3;

pub const RIGHT_AT: usize = 4;

pub const NEXT_AT: usize = 5;

pub const PREV_AT: usize = 6;

pub const UP_AT: usize = 7;

// Field f of pair p, 0 past the end: what the ring of a level that is not tested leads to may be no pair of the table.
pub fn field(tree: &[u64], base: usize, f: usize, p: u64) -> u64
    requires { (base ≤ base_most) × (f < pair_words) }
    ensures { result ≡ slice_index tree.now (pair_cell base f p) }
{
    words::cell(tree, base + (HEADER_WORDS + f), PAIR_WORDS, p as usize)
}

// Field f of a pair that the table has: with no look at a bound, which the calls behind a gate are spared.
pub fn field_in(tree: &[u64], base: usize, f: usize, p: u64) -> u64
    requires { (f < pair_words) × Stands base p tree.now }
    ensures { result ≡ slice_index tree.now (pair_cell base f p) }
{
    let at = base + (HEADER_WORDS + f) + PAIR_WORDS * p as usize;
    tree[at]
}

// The same written.
pub fn put_field_in(tree: &mut [u64], base: usize, f: usize, p: u64, v: u64)
    requires { (f < pair_words) × Stands base p tree.old }
    ensures { tree.new ≡ slice_set tree.old (pair_cell base f p) v }
{
    let at = base + (HEADER_WORDS + f) + PAIR_WORDS * p as usize;
    tree[at] = v;
}

// Pair p leaves the ring. Where the links of a level stand is said here and in `join` and `ring_size`; a value that said it would be
// taken apart again at each call of `ring`.
fn leave(tree: &mut [u64], base: usize, p: u64)
    requires { Leaves base p tree.old }
    ensures { tree.new ≡ leaves base p tree.old }
{
    let next = base + (HEADER_WORDS + NEXT_AT);
    let prev = base + (HEADER_WORDS + PREV_AT);
    ring::unlink(
        tree,
        (base + RING_AT) as u64,
        next as u64,
        prev as u64,
        PAIR_WORDS as u64,
        p,
    );
}

// Pair p joins the ring.
fn join(tree: &mut [u64], base: usize, p: u64)
    requires { Joins base p tree.old }
    ensures { tree.new ≡ joins base p tree.old }
{
    let next = base + (HEADER_WORDS + NEXT_AT);
    let prev = base + (HEADER_WORDS + PREV_AT);
    ring::link(
        tree,
        (base + RING_AT) as u64,
        next as u64,
        prev as u64,
        PAIR_WORDS as u64,
        p,
    );
}

// The pair p goes: it leaves the ring, and its place is the one vacated last.
pub fn drop_pair(tree: &mut [u64], base: usize, p: u64)
    requires { Leaves base p tree.old }
    ensures { tree.new ≡ dropped base p tree.old }
{
    let vacated = tree[base + VACATED_AT];
    leave(tree, base, p);
    put_field_in(tree, base, TAG_AT, p, VACANT);
    put_field_in(tree, base, OFF_AT, p, vacated);
    tree[base + VACATED_AT] = slabs::record_of(p);
}

// The pair p joins the ring before the head, ready at this side, where the node is free.
pub fn ready_pair(tree: &mut [u64], base: usize, p: u64, side: Side)
    requires { Joins base p tree.old }
    ensures { tree.new ≡ backed base p (side_said side) tree.old }
{
    join(tree, base, p);
    put_field_in(tree, base, TAG_AT, p, sides::ready_tag(side));
    put_field_in(tree, base, word_at(side), p, FREE_WORD);
}

// The head pair h leaves the ring, exhausted: the node at its ready side has the word w.
pub fn acquire(tree: &mut [u64], base: usize, h: u64, side: Side, w: u64)
    requires leaves { Leaves base h tree.old }
    requires h_value { (h ≡ ring_head base tree.old) × (side_said side ≡ side_of (slice_index tree.old (pair_cell base tag_at h))) }
    ensures { tree.new ≡ acquired base w tree.old }
{
    leave(tree, base, h);
    put_field_in(tree, base, TAG_AT, h, EXHAUSTED);
    put_field_in(tree, base, word_at(side), h, w);
}

// The place that a new pair takes, and the slab from then on. As Slab::insert, but with no look at a bound.
pub fn pair_taken(tree: &[u64], base: usize) -> Taken
    requires { Takes base tree.now }
    ensures { result ≡ pair_taken base tree.now }
{
    let n = tree[base + USED_AT];
    let last = slabs::place_of(tree[base + VACATED_AT]);
    if last < n {
        let next = slabs::place_of(field_in(tree, base, OFF_AT, last));
        return Taken {
            place: last,
            slab: Slab {
                places: n,
                vacant: next,
            },
        };
    }
    let more = std::num::wrapping_add_u64(n, 1);
    Taken {
        place: n,
        slab: Slab {
            places: more,
            vacant: last,
        },
    }
}

// A new pair of a node, whose left node has the word `left`: ready at its right, and alone in the ring. Tells its place.
pub fn add_pair(tree: &mut [u64], base: usize, chunk: u64, offset: u64, node: u64, left: u64) -> u64
    requires { Stands base (pair_taken base tree.old).place tree.old }
    ensures value { result ≡ (pair_taken base tree.old).place }
    ensures tree_after { tree.new ≡ added base chunk offset node left tree.old }
{
    let taken = pair_taken(tree, base);
    let s = taken.slab;
    tree[base + USED_AT] = s.places;
    tree[base + VACATED_AT] = slabs::record_of(s.vacant);
    enter_pair(tree, base, taken.place, chunk, offset, node, left);
    taken.place
}

// A new pair at the place p, alone in the ring.
fn enter_pair(tree: &mut [u64], base: usize, p: u64, chunk: u64, offset: u64, node: u64, left: u64)
    requires { Stands base p tree.old }
    ensures { tree.new ≡ entered base p chunk offset node left tree.old }
{
    write_pair(tree, base, p, chunk, offset, node, left);
    stand_alone(tree, base, p);
}

// The words of a new pair but for its links.
fn write_pair(tree: &mut [u64], base: usize, p: u64, chunk: u64, offset: u64, node: u64, left: u64)
    requires { Stands base p tree.old }
    ensures { tree.new ≡ slice_set (slice_set (slice_set (slice_set (slice_set (slice_set tree.old (pair_cell base tag_at p) right_ready) (pair_cell base chunk_at p) chunk) (pair_cell base off_at p) offset) (pair_cell base left_at p) left) (pair_cell base right_at p) free_word) (pair_cell base up_at p) node }
{
    put_field_in(tree, base, TAG_AT, p, RIGHT_READY);
    put_field_in(tree, base, CHUNK_AT, p, chunk);
    put_field_in(tree, base, OFF_AT, p, offset);
    put_field_in(tree, base, LEFT_AT, p, left);
    put_field_in(tree, base, RIGHT_AT, p, FREE_WORD);
    put_field_in(tree, base, UP_AT, p, node);
}

// Pair p alone is the ring.
fn stand_alone(tree: &mut [u64], base: usize, p: u64)
    requires { Stands base p tree.old }
    ensures { tree.new ≡ alone (base + ring_at) (field_at base next_at) (field_at base prev_at) pair_words p tree.old }
{
    let r = slabs::record_of(p);
    put_field_in(tree, base, NEXT_AT, p, r);
    put_field_in(tree, base, PREV_AT, p, r);
    tree[base + RING_AT] = r;
}

// A level with no pair.
pub fn fresh_level(tree: &mut [u64], base: usize)
    requires { base ≤ base_most }
    ensures { tree.new ≡ fresh_level base tree.old }
{
    words::put(tree, base + RING_AT, 0);
    words::put(tree, base + USED_AT, 0);
    words::put(tree, base + VACATED_AT, 0);
}
