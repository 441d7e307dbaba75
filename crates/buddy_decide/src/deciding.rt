// What an ask comes to, by the tests 5, 6, 8, 10 and 9, once the gate is passed.
ghost use Rattle.std.specs.Prelude.{◌≡◌, true, List, [], ℕ, ◌≤◌, ◌<◌, get_or};
ghost use Rattle.rounding_rules.specs.Raising.{level_of};
ghost use Rattle.counter.specs.Gate.{first};
ghost use Rattle.counter.specs.Limits.{levels_most};
ghost use Rattle.store_rules.specs.Loans.{places_at};
ghost use Rattle.book_rules.specs.Book.{taken_of};
ghost use Rattle.buddy_rules.specs.Level.{ring_head};
ghost use Rattle.buddy_rules.specs.Seen.{seen};
ghost use Rattle.buddy_rules.specs.Tables.{tables, level_from};
ghost use Rattle.buddy_outcomes.specs.Ask.{nowhere, grown_to, fits_at, late_row, order_bytes, planned, decide_ask};
ghost use Rattle.buddy_decide.specs.Sees.{ViewSees, beside};
ghost use Rattle.buddy_decide.specs.Plans.{plan_of, PlannedAt, Planned, places_room, TryTake, TrySized, TryOf};

use crate::plans::{Buying, Needing, Plan, Taking, Tried};
use crate::seeking::Found;
use buddy_rules::{BuddyView, LEVELS_AT};
use counter::{Heap, LEVELS_MOST, Refusal};
use slabs::Taken;
use store_rules::{GIVEN_AT, PLACES_AT};

// The place of the book that a loan takes next.
fn next_loan(v: &BuddyView<'_>) -> Taken
    requires { ViewSees v.now }
    ensures { result ≡ taken_of (get_or v.now.loans.now places_at 0) v.now.index.now }
{
    book::next_place_in(v.loans[PLACES_AT], v.index)
}

// The head pair of a level serves, whatever the chunks.
fn try_take(
    v: &BuddyView<'_>,
    size: u64,
    level: u64,
    from: u64,
    pair: u64,
) -> Result<Tried, Refusal>
    requires { ViewSees v.now × (level ≤ from) × (from ≤ levels_most) × (pair ≡ ring_head (level_from v.now.settings from) v.now.tree.now) }
    ensures { (chunks : List ℕ) → TryTake v.now.settings size level from (beside v.now chunks) result }
{
    let s = v.settings;
    let own = s.store;
    let levels = v.head[LEVELS_AT];
    let loan = next_loan(v);
    if own.loans as u64 <= loan.place {
        return Err(Refusal::Full);
    }
    if !crate::seeking::has_pairs(s.pairs, level, from - level, levels, v.tree) {
        return Err(Refusal::Full);
    }
    if v.loans[GIVEN_AT] == u64::MAX {
        return Err(Refusal::Count);
    }
    Ok(Tried::Take(Taking {
        size,
        level,
        from,
        pair,
        loan,
    }))
}

// Whether these places of a loan and a chunk are left, and the pairs of a split from above level `top` down to this one.
fn has_room(v: &BuddyView<'_>, level: u64, top: u64, loan: u64, chunk: u64) -> bool
    requires { ViewSees v.now × (level ≤ top) × (top ≤ levels_most) }
    ensures { result ≡ places_room v.now.settings level top loan chunk (tables v.now.head.now [] [] [] v.now.tree.now) }
{
    let s = v.settings;
    let own = s.store;
    let levels = words::word(v.head, LEVELS_AT);
    let pairs = crate::seeking::has_pairs(s.pairs, level, top - level, levels, v.tree);
    (loan < own.loans as u64) & ((chunk < own.chunks as u64) & pairs)
}

// None does: a chunk is needed.
pub fn decide_buy(v: &BuddyView<'_>, h: Heap, objects: u32, n: Needing) -> Result<Plan, Refusal>
    requires { ViewSees v.now × (n.level < levels_most) × (n.order ≡ order_bytes v.now.settings n.level (tables v.now.head.now [] [] [] [])) × (n.levels ≡ grown_to n.level (tables v.now.head.now [] [] [] [])) }
    ensures result_value { plan_of result ≡ planned v.now.settings n.level (seen v.now) nowhere (first (late_row v.now.settings h objects n.level (seen v.now) nowhere)) }
    ensures planned_at { PlannedAt v.now.settings n.size n.level (seen v.now) result }
{
    let s = v.settings;
    let loan = next_loan(v);
    let chunk = crate::seeking::chunk_taken(s.pairs, v.chunks, v.tree);
    if !has_room(v, n.level, n.levels, loan.place, chunk.place) {
        return Err(Refusal::Full);
    }
    let given = words::word(v.loans, GIVEN_AT) < u64::MAX;
    if !(given & heap::bears(h, n.order)) {
        return Err(Refusal::Count);
    }
    if objects == 0 {
        return Ok(Plan::Lack(n.levels));
    }
    Ok(Plan::Buy(Buying {
        order: n.order,
        size: n.size,
        level: n.level,
        levels: n.levels,
        loan,
        chunk,
    }))
}

// An ask for so many bytes, a power of two.
fn try_sized(v: &BuddyView<'_>, size: u64) -> Result<Tried, Refusal>
    requires { ViewSees v.now × (fits_at levels_most v.now.settings size ≡ true → level_of size v.now.settings.minimal < levels_most) }
    ensures { (chunks : List ℕ) → TrySized v.now.settings size (level_of size v.now.settings.minimal) (beside v.now chunks) result }
{
    let s = v.settings;
    if buddy_levels::node_bytes(s.minimal, LEVELS_MOST as u64) <= size {
        return Err(Refusal::Size);
    }
    let level = rounding::level(size, s.minimal) as u64;
    let levels = v.head[LEVELS_AT];
    let found = crate::seeking::seek(s.minimal, s.pairs, level, levels, v.tree);
    match found {
        Found::At(pair, from) => try_take(v, size, level, from, pair),
        Found::Order(order, grown) => Ok(Tried::Need(Needing {
            order,
            size,
            level,
            levels: grown,
        })),
    }
}

// Heap, objects and chunks are left out: only an ask that needs a chunk is tested by them.
pub fn try_held(v: &BuddyView<'_>, size: u64, mask: u64) -> Result<Tried, Refusal>
    requires { ViewSees v.now }
    ensures { (chunks : List ℕ) → TryOf v.now.settings size mask (beside v.now chunks) result }
{
    if !counter::is_alignment(mask) {
        return Err(Refusal::Mask);
    }
    if size == 0 {
        return Err(Refusal::Size);
    }
    let raised = crate::asks::size_for(v.settings, size, mask);
    match raised {
        Some(z) => try_sized(v, z),
        None => Err(Refusal::Size),
    }
}

// The same with heap, objects and chunks: the whole plan.
pub fn decide(
    v: &BuddyView<'_>,
    h: Heap,
    objects: u32,
    size: u64,
    mask: u64,
) -> Result<Plan, Refusal>
    requires { ViewSees v.now }
    ensures result_value { plan_of result ≡ decide_ask v.now.settings h objects size mask (seen v.now) }
    ensures planned { Planned v.now.settings size mask (seen v.now) result }
{
    match try_held(v, size, mask)? {
        Tried::Take(t) => Ok(Plan::Take(t)),
        Tried::Need(n) => decide_buy(v, h, objects, n),
    }
}
