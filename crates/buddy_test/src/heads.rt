// The head, the loans and the chunks by their places, the levels, and the loans' units.
ghost use Rattle.std.specs.Prelude.{◌≡◌, ◌&&◌, ◌||◌, [], ◌+◌, ◌-◌, ◌*◌, ◌%◌, ◌≤◌, IfSome, is_some, eqb, leb, length, get_or};
ghost use Rattle.counter.specs.InTable.{BuddyIn};
ghost use Rattle.counter.specs.Limits.{levels_most, pairs_most, loans_most};
ghost use Rattle.slabs.specs.Slab.{vacant_at};
ghost use Rattle.slabs.specs.Test.{vacancies, parted_ok};
ghost use Rattle.store_rules.specs.Loans.{given_at, places_at, loan_words, size_at};
ghost use Rattle.book_rules.specs.Kept.{kept_ok};
ghost use Rattle.buddy_rules.specs.LevelTest.{level_ok};
ghost use Rattle.buddy_rules.specs.Level.{level_start};
ghost use Rattle.buddy_rules.specs.Seen.{seen};
ghost use Rattle.buddy_rules.specs.Tables.{Lengths, marks, signed_ok, levels_in, chunk_places_at, initial_levels, vacant_chunk, chunk_after, chunk_slab};
ghost use Rattle.buddy_rules.specs.Test.{every, pairs_in_use, pairs_ready, held_count, units_ok};
ghost use Rattle.buddy_levels.specs.Seen.{part_settings, part_tables, level_part};

use buddy_levels::PairCounts;
use buddy_rules::{
    AFTER_AT, BuddyView, CHUNK_SIZE_AT, CHUNK_WORDS, CHUNKS_MARK, HEAD_MARK, INDEX_MARK, LEVELS_AT,
    LOANS_MARK, PLACE_WORDS, ROOM_MARK,
};
use counter::{BuddySettings, LEVELS_MOST};
use slabs::Slab;
use store_rules::{GIVEN_AT, Loan};
use words::MARK_AT;

// Whether each table begins with its mark.
fn is_signed(v: &BuddyView<'_>) -> bool
    ensures { result ≡ signed_ok marks (seen v.now) }
{
    (words::word(v.head, MARK_AT) == HEAD_MARK)
        & (words::word(v.loans, MARK_AT) == LOANS_MARK)
        & (words::word(v.chunks, MARK_AT) == CHUNKS_MARK)
        & (words::word(v.index, MARK_AT) == INDEX_MARK)
        & (words::word(v.tree, MARK_AT) == ROOM_MARK)
}

// Whether the tables have their marks, and the levels are as many as at first or more, and not too many.
pub fn is_head(v: &BuddyView<'_>) -> bool
    ensures { result ≡ (signed_ok marks (seen v.now) && (leb (initial_levels v.now.settings) (levels_in (seen v.now)) && leb (levels_in (seen v.now)) levels_most)) }
{
    let s = v.settings;
    let levels = words::word(v.head, LEVELS_AT);
    let first = rounding::level(s.initial, s.minimal) as u64;
    let most = LEVELS_MOST as u64;
    is_signed(v) & ((first <= levels) & (levels <= most))
}

// How many loans stand at the places ever used, where the book is right.
pub fn live_loans(v: &BuddyView<'_>, places: u64) -> Option<u64>
    requires lengths { Lengths v.now.settings (seen v.now) }
    requires places { places ≡ get_or v.now.loans.now places_at 0 }
    ensures right { is_some result ≡ kept_ok v.now.loans.now v.now.index.now v.now.settings.store.loans places (get_or v.now.loans.now given_at 0) }
    ensures live { IfSome result (λ n. (n ≡ places - vacancies (vacant_at v.now.loans.now size_at loan_words) places) × (n ≤ places)) }
{
    let given = words::word(v.loans, GIVEN_AT);
    book::are_kept(v.loans, v.index, v.settings.store.loans, places, given)
}

// How many chunks stand at the first n places, where those are parted into used and vacant ones.
pub fn held_chunks(v: &BuddyView<'_>, n: u64) -> Option<u64>
    requires { n ≡ get_or v.now.chunks.now chunk_places_at 0 }
    ensures right { is_some result ≡ parted_ok (vacant_chunk (level_part 0 v.now.chunks.now v.now.tree.now)) (chunk_after v.now.settings (level_part 0 v.now.chunks.now v.now.tree.now)) (chunk_slab v.now.settings (level_part 0 v.now.chunks.now v.now.tree.now)) v.now.settings.store.chunks }
    ensures held { IfSome result (λ k. (k ≡ held_count (level_part 0 v.now.chunks.now [])) × (k ≤ n)) }
{
    let s = v.settings;
    let own = s.store;
    let at = buddy_levels::chunks_from(s.pairs);
    let places = Slab {
        places: n,
        vacant: slabs::led_to(v.tree, at),
    };
    let after = at + (PLACE_WORDS + AFTER_AT);
    slabs::test_parts(
        places,
        own.chunks as u64,
        v.chunks,
        CHUNK_SIZE_AT,
        CHUNK_WORDS,
        v.tree,
        after,
        PLACE_WORDS,
    )
}

// How many pairs of so many levels are in use and how many of them ready, where the chain and the ring of each level are right.
pub fn count_pairs(pairs: usize, levels: u64, tree: &[u64]) -> Option<PairCounts>
    requires { (pairs ≤ pairs_most) × (levels ≤ levels_most) × (level_start pairs levels_most ≤ length tree.now) }
    ensures right { is_some result ≡ every (λ l. level_ok (level_start pairs l) pairs tree.now) levels }
    ensures counts { IfSome result (λ c. (c.used ≡ pairs_in_use (part_settings 0 pairs 0) (level_part 0 [] tree.now) levels) × (c.ready ≡ pairs_ready (part_settings 0 pairs 0) (level_part 0 [] tree.now) levels) × (c.used ≤ levels * pairs_most) × (c.ready ≤ levels * pairs_most)) }
{
    let mut used = 0;
    let mut ready = 0;
    for l in 0..levels {
        let base = buddy_levels::level_from(pairs, l as usize);
        let level = buddy_levels::test_level(tree, base, pairs as u64)?;
        used += level.used;
        ready += level.ready;
    }
    Some(PairCounts { used, ready })
}

// Whether a loan, where there is one, is of whole atom units.
fn is_units(s: BuddySettings, l: Loan) -> bool
    requires { BuddyIn s }
    ensures { result ≡ (eqb l.size 0 || (eqb (l.offset % (s.store.atom + 1)) 0 && eqb (l.size % (s.store.atom + 1)) 0)) }
{
    let own = s.store;
    let atom = own.atom;
    (l.size == 0) | ((l.offset & atom == 0) & (l.size & atom == 0))
}

// Whether each loan in the first n places is.
pub fn are_units(s: BuddySettings, n: u64, loans: &[u64]) -> bool
    requires { BuddyIn s × (n ≤ loans_most) × (n ≡ get_or loans.now places_at 0) × (loan_words + loan_words * n ≤ length loans.now) }
    ensures { result ≡ every (units_ok s (part_tables 0 loans.now [] [] [])) n }
{
    for k in 0..n {
        if !is_units(s, book::loan_in(loans, k as usize)) {
            return false;
        }
    }
    true
}
