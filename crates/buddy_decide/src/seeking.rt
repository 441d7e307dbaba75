// The search upward for a level with a ready side, and whether there are pairs for the split down.
ghost use Rattle.std.specs.Prelude.{◌≡◌, [], ℕ, ◌+◌, ◌^◌, ◌≤◌, ◌<◌, length};
ghost use Rattle.counter.specs.Limits.{levels_most, pairs_most, minimal_bits};
ghost use Rattle.buddy_rules.specs.Level.{level_start};
ghost use Rattle.buddy_levels.specs.Seen.{part_settings, level_part};
ghost use Rattle.buddy_levels.specs.Stands.{Takes};
ghost use Rattle.buddy_outcomes.specs.Ask.{pairs_room, chunk_taken};
ghost use Rattle.buddy_decide.specs.Sought.{sought};

use buddy_levels::{RING_AT, level_from};
use buddy_rules::{AFTER_AT, CHUNK_PLACES_AT, PLACE_WORDS};
use slabs::{NOWHERE, Slab, Taken};

// The head pair of a level, and that level; or the size of the chunk to order, and the levels that it needs.
#[derive(Clone, Copy)]
pub enum Found {
    At(u64, u64),
    Order(u64, u64),
}

// From this level on: the first with a ready side ends the search. Where none has, the chunk to order is a node of the level
// above the top.
pub fn seek(minimal: u64, pairs: usize, level: u64, levels: u64, tree: &[u64]) -> Found
    requires { (minimal ≤ 2 ^ minimal_bits) × (pairs ≤ pairs_most) × (level < levels_most) × (levels ≤ levels_most) × (level_start pairs levels_most ≤ length tree.now) }
    ensures { result ≡ sought minimal pairs level levels tree.now }
{
    let mut l = level;
    // no `for`: 01 wants the pair and its level, or the order, yielded by `break`
    let found = loop {
        if levels <= l {
            let top = levels.max(level + 1);
            break Found::Order(buddy_levels::node_bytes(minimal, top), top);
        }
        let head = slabs::place_of(tree[level_from(pairs, l as usize) + RING_AT]);
        if head != NOWHERE {
            break Found::At(head, l);
        }
        l += 1;
    };
    found
}

// Whether each of n levels from this one on has a place for a new pair; one that is not there yet has.
pub fn has_pairs(pairs: usize, level: u64, n: u64, levels: u64, tree: &[u64]) -> bool
    requires pairs_le_pairs_most { (pairs ≤ pairs_most) × (levels ≤ levels_most) × (level + n ≤ levels_most) }
    requires by_index { (l : ℕ) → l < levels → Takes (level_start pairs l) tree.now }
    ensures { result ≡ pairs_room (part_settings 0 pairs 0) (level_part levels [] tree.now) level n }
{
    for i in 0..n {
        let l = level + i;
        if l < levels {
            let taken = buddy_levels::pair_taken(tree, level_from(pairs, l as usize));
            if pairs as u64 <= taken.place {
                return false;
            }
        }
    }
    true
}

// The chunk place that is taken next, and the slab from then on.
pub fn chunk_taken(pairs: usize, chunks: &[u64], tree: &[u64]) -> Taken
    requires { pairs ≤ pairs_most }
    ensures { result ≡ chunk_taken (part_settings 0 pairs 0) (level_part 0 chunks.now tree.now) }
{
    let at = buddy_levels::chunks_from(pairs);
    let s = Slab {
        places: words::word(chunks, CHUNK_PLACES_AT),
        vacant: slabs::led_to(tree, at),
    };
    s.insert(tree, at + (PLACE_WORDS + AFTER_AT), PLACE_WORDS)
}
