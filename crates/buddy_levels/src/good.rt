// The test of a level, linear in the pair places ever used: its chain and its ring are followed, and no place is looked at beside them.
ghost use Rattle.std.specs.Prelude.{◌≡◌, ◌+◌, ◌≤◌, IfSome, is_some, length, slice_index};
ghost use Rattle.ring_rules.specs.Test.{ring_length};
ghost use Rattle.buddy_rules.specs.Level.{base_most, level_words, ring_at, used_at, next_at, prev_at, pair_words, field_at};
ghost use Rattle.buddy_rules.specs.LevelTest.{along, ready_in, ready_after, ringed, in_use, level_ok};

use crate::{
    HEADER_WORDS, NEXT_AT, OFF_AT, PAIR_WORDS, PREV_AT, RING_AT, TAG_AT, USED_AT, VACATED_AT, field,
};
use buddy_rules::EXHAUSTED;
use slabs::NOWHERE;

// How many pairs of levels are in use, and how many of them stand in the rings.
#[derive(Clone, Copy)]
pub struct PairCounts {
    pub used: u64,
    pub ready: u64,
}

// A level of at most `pairs` places, where it is right: its chain and its ring end within its places, and the ring's pairs are ready.
pub fn test_level(tree: &[u64], base: usize, pairs: u64) -> Option<PairCounts>
    requires { (base ≤ base_most) × (base + level_words pairs ≤ length tree.now) }
    ensures right { is_some result ≡ level_ok base pairs tree.now }
    ensures counts { IfSome result (λ c. (c.used ≡ in_use base tree.now) × (c.ready ≡ ringed base tree.now) × (c.used ≤ pairs) × (c.ready ≤ pairs)) }
{
    let places = tree[base + USED_AT];
    if pairs < places {
        return None;
    }
    let used = count_used(tree, base, places);
    let ready = ring_size(tree, base, places);
    if (used == NOWHERE) | (ready == NOWHERE) {
        return None;
    }
    if !all_ready(tree, base, slabs::led_to(tree, base + RING_AT), ready) {
        return None;
    }
    Some(PairCounts { used, ready })
}

// How many pairs are in use: of the places ever used those that the chain of the vacated ones leaves over, NOWHERE where it is torn,
// as in_use has it.
fn count_used(tree: &[u64], base: usize, places: u64) -> u64
    requires { (base ≤ base_most) × (base + level_words places ≤ length tree.now) × (places ≡ slice_index tree.now (base + used_at)) }
    ensures { result ≡ in_use base tree.now }
{
    let last = slabs::led_to(tree, base + VACATED_AT);
    let mark = base + (HEADER_WORDS + TAG_AT);
    let after = base + (HEADER_WORDS + OFF_AT);
    slabs::off_chain(
        tree, mark, PAIR_WORDS, tree, after, PAIR_WORDS, places, last,
    )
}

// How many pairs stand in the ring, all of them below `used`: NOWHERE where it is torn, as specs/Test of ring_rules has it.
fn ring_size(tree: &[u64], base: usize, used: u64) -> u64
    requires { base ≤ base_most }
    ensures { result ≡ ring_length (base + ring_at) (field_at base next_at) (field_at base prev_at) pair_words used tree.now }
{
    let next = base + (HEADER_WORDS + NEXT_AT);
    let prev = base + (HEADER_WORDS + PREV_AT);
    ring::ring_length(
        tree,
        (base + RING_AT) as u64,
        next as u64,
        prev as u64,
        PAIR_WORDS as u64,
        used,
    )
}

// Whether the pair h and those after it in the ring, k of them, are ready.
fn all_ready(tree: &[u64], base: usize, h: u64, k: u64) -> bool
    requires { base ≤ base_most }
    ensures { result ≡ along (ready_in base tree.now) (ready_after base tree.now) h k }
{
    let next = base + (HEADER_WORDS + NEXT_AT);
    let mut p = h;
    for _ in 0..k {
        if field(tree, base, TAG_AT, p) <= EXHAUSTED {
            return false;
        }
        p = slabs::link(tree, next, PAIR_WORDS, p);
    }
    true
}
