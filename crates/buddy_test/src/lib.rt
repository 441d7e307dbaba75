// The test of a buddy store's tables. It reads each table as it stands, so that no word in one can make it fail.
#![tactic(auto)]

mod heads;
mod memories;

ghost use Rattle.std.specs.Prelude.{◌≡◌, ◌+◌, ◌*◌, ◌≤◌, eqb, get_or};
ghost use Rattle.counter.specs.Limits.{levels_most, pairs_most, loans_most, chunks_most};
ghost use Rattle.buddy_rules.specs.Seen.{seen};
ghost use Rattle.buddy_rules.specs.Tables.{Lengths, chunk_places_at};
ghost use Rattle.buddy_rules.specs.Test.{pairs_in_use, live_count, counted_ok, sound_ok};
ghost use Rattle.buddy_levels.specs.Seen.{part_tables};
ghost use Rattle.buddy_walk.specs.Walks.{Within};

use buddy_levels::PairCounts;
use buddy_rules::{BuddyView, CHUNK_PLACES_AT, LEVELS_AT};
use buddy_walk::WalkView;
use store_rules::PLACES_AT;

// Whether the rings have every ready pair: a chunk's tree has one pair less than leaves, and those are its loans and a side of each
// ready pair.
fn are_leaves(pairs: PairCounts, live: u64, held: u64) -> bool
    requires { (pairs.used ≤ levels_most * pairs_most) × (pairs.ready ≤ levels_most * pairs_most) × (live ≤ loans_most) × (held ≤ chunks_most) }
    ensures { result ≡ eqb (pairs.ready + live) (pairs.used + held) }
{
    pairs.ready + live == pairs.used + held
}

// Whether the walk down every chunk meets all of so many pairs in use and loans.
fn are_met(v: &BuddyView<'_>, levels: u64, held: u64, count: u64) -> bool
    requires { (levels ≤ levels_most) × (held ≤ chunks_most) × (held ≡ get_or v.now.chunks.now chunk_places_at 0) × Within levels v.now.settings.pairs v.now.settings.store.loans v.now.loans.now v.now.index.now v.now.tree.now × (count ≡ pairs_in_use v.now.settings (part_tables levels v.now.loans.now v.now.chunks.now v.now.index.now v.now.tree.now) levels + live_count (part_tables levels v.now.loans.now v.now.chunks.now v.now.index.now v.now.tree.now)) }
    ensures { result ≡ counted_ok v.now.settings (part_tables levels v.now.loans.now v.now.chunks.now v.now.index.now v.now.tree.now) }
{
    let w = WalkView {
        settings: v.settings,
        levels,
        loans: v.loans,
        index: v.index,
        tree: v.tree,
    };
    let left = buddy_walk::left_chunks(&w, held, count, v.chunks);
    left == 0
}

// Whether the tables hold a sound store. The tests that read least come first, and each relies on those before it.
pub fn is_sound(v: &BuddyView<'_>) -> bool
    requires { Lengths v.now.settings (seen v.now) }
    ensures { result ≡ sound_ok v.now.settings (seen v.now) }
{
    if !heads::is_head(v) {
        return false;
    }
    let s = v.settings;
    let levels = words::word(v.head, LEVELS_AT);
    let places = words::word(v.loans, PLACES_AT);
    let used = words::word(v.chunks, CHUNK_PLACES_AT);
    let Some(live) = heads::live_loans(v, places) else {
        return false;
    };
    let Some(held) = heads::held_chunks(v, used) else {
        return false;
    };
    if !memories::are_memories(v.chunks, used as usize) {
        return false;
    }
    let Some(pairs) = heads::count_pairs(s.pairs, levels, v.tree) else {
        return false;
    };
    if !are_leaves(pairs, live, held) {
        return false;
    }
    if !are_met(v, levels, used, pairs.used + live) {
        return false;
    }
    heads::are_units(s, places, v.loans)
}
