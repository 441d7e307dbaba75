// What a pair's words say.
ghost use Rattle.std.specs.Prelude.{◌≡◌, ◌≤◌};
ghost use Rattle.buddy_rules.specs.Level.{base_most, ent_of};
ghost use Rattle.buddy_levels.specs.Pairs.{ent_from};
ghost use Rattle.buddy_levels.specs.Stands.{Stands};

use crate::{CHUNK_AT, HEADER_WORDS, LEFT_AT, OFF_AT, PAIR_WORDS, RIGHT_AT, TAG_AT, UP_AT, field};

#[derive(Clone, Copy)]
pub struct Pair {
    pub tag: u64,
    pub chunk: u64,
    pub off: u64,
    pub left: u64,
    pub right: u64,
    pub up: u64,
}

// Of the pair p. Where the last of its words is there, all are, and none needs a test of its own.
pub fn pair_at(tree: &[u64], base: usize, p: u64) -> Pair
    requires { base ≤ base_most }
    ensures { ent_from result ≡ ent_of base tree.now p }
{
    let i = p as usize;
    if i < tree.len() {
        if base + (HEADER_WORDS + UP_AT) + PAIR_WORDS * i < tree.len() {
            return standing_pair(tree, base, p);
        }
    }
    pair_by_words(tree, base, p)
}

// Of a pair that the table has.
pub fn standing_pair(tree: &[u64], base: usize, p: u64) -> Pair
    requires { Stands base p tree.now }
    ensures { ent_from result ≡ ent_of base tree.now p }
{
    let at = base + (HEADER_WORDS + PAIR_WORDS * p as usize);
    Pair {
        tag: tree[at + TAG_AT],
        chunk: tree[at + CHUNK_AT],
        off: tree[at + OFF_AT],
        left: tree[at + LEFT_AT],
        right: tree[at + RIGHT_AT],
        up: tree[at + UP_AT],
    }
}

// The same, each word by itself.
fn pair_by_words(tree: &[u64], base: usize, p: u64) -> Pair
    requires { base ≤ base_most }
    ensures { ent_from result ≡ ent_of base tree.now p }
{
    Pair {
        tag: field(tree, base, TAG_AT, p),
        chunk: field(tree, base, CHUNK_AT, p),
        off: field(tree, base, OFF_AT, p),
        left: field(tree, base, LEFT_AT, p),
        right: field(tree, base, RIGHT_AT, p),
        up: field(tree, base, UP_AT, p),
    }
}
