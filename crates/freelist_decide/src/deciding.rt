// What an ask comes to, by the tests 5, 6, 8, 10 and 9, once the gate is passed.
ghost use Rattle.std.specs.Prelude.{◌≡◌, [], ◌∷◌, ℕ, ◌≤◌, ltb, length, ◌<◌};
ghost use Rattle.counter.specs.Limits.{spent};
ghost use Rattle.counter.specs.Gate.{first};
ghost use Rattle.book_rules.specs.Book.{taken_of};
ghost use Rattle.freelist_rules.specs.Place.{nowhere, at, size_for};
ghost use Rattle.freelist_rules.specs.Tables.{RegionsFit, chunks_at, given_in, places_in, tables};
ghost use Rattle.book_rules.specs.Ready.{Reads};
ghost use Rattle.freelist_rules.specs.Seen.{seen};
ghost use Rattle.freelist_outcomes.specs.Ask.{size_ok, room_ok, late_row, planned, decide_ask};
ghost use Rattle.freelist_decide.specs.Plans.{plan_of, Carries, Planned};

use counter::{FreeListSettings, Heap, Refusal};
use freelist_regions::Fit;
use freelist_rules::{CHUNK_SIZE_AT, CHUNKS_AT, FreeListView, MADE_AT};
use slabs::Taken;
use store_rules::{GIVEN_AT, PLACES_AT};

// The region that serves, where its block starts, and the place that the loan takes in the book.
#[derive(Clone, Copy)]
pub struct Taking {
    pub region: usize,
    pub start: u64,
    pub loan: Taken,
}

// The chunk to order; the rounded size and the joined mask that are looked for, and the place that the loan takes in the book.
#[derive(Clone, Copy)]
pub struct Buying {
    pub order: u64,
    pub size: u64,
    pub mask: u64,
    pub loan: Taken,
}

// What the tests worked out goes on in the plan: a block is taken, or a chunk is bought.
#[derive(Clone, Copy)]
pub enum Plan {
    Take(Taking),
    Buy(Buying),
}

fn is_size(s: FreeListSettings, size: u64) -> bool
    ensures { result ≡ size_ok s size }
{
    (0 < size) & (size <= s.last)
}

// Whether that place of the book is one of the store's.
fn is_place(s: FreeListSettings, loan: Taken) -> bool
    ensures { result ≡ ltb loan.place s.store.loans }
{
    let store = s.store;
    loan.place < store.loans as u64
}

// A region serves.
fn decide_take(t: &FreeListView<'_>, fit: Fit) -> Result<Plan, Refusal>
    requires { Reads t.now.settings.store.loans (places_in (seen t.now)) t.now.loans.now t.now.index.now }
    ensures result_value { plan_of result ≡ planned t.now.settings 0 (tables [] t.now.loans.now [] t.now.index.now []) (at fit.region) (first ((room_ok t.now.settings (tables [] t.now.loans.now [] t.now.index.now []) (at fit.region), 8) ∷ (ltb (given_in (seen t.now)) spent, 10) ∷ [])) }
    ensures by_index { (from : ℕ → ℕ) → (n m : ℕ) → fit.start ≡ from fit.region → Carries from n m (taken_of (places_in (seen t.now)) t.now.index.now) result }
{
    let loan = book::next_place_in(t.loans[PLACES_AT], t.index);
    if !is_place(t.settings, loan) {
        return Err(Refusal::Full);
    }
    if u64::MAX <= t.loans[GIVEN_AT] {
        return Err(Refusal::Count);
    }
    Ok(Plan::Take(Taking {
        region: fit.region,
        start: fit.start,
        loan,
    }))
}

// None does: a chunk is needed. `size` is rounded, and `mask` joined with the atom mask.
fn decide_buy(
    t: &FreeListView<'_>,
    h: Heap,
    objects: u32,
    size: u64,
    mask: u64,
) -> Result<Plan, Refusal>
    requires { Reads t.now.settings.store.loans (places_in (seen t.now)) t.now.loans.now t.now.index.now × (chunks_at < length t.now.chunks.now) }
    ensures by_index { (asked : ℕ) → size ≡ size_for t.now.settings asked → plan_of result ≡ planned t.now.settings asked (tables t.now.head.now t.now.loans.now t.now.chunks.now t.now.index.now []) nowhere (first (late_row t.now.settings h objects asked (tables t.now.head.now t.now.loans.now t.now.chunks.now t.now.index.now []) nowhere)) }
    ensures by_index_2 { (from : ℕ → ℕ) → Carries from size mask (taken_of (places_in (seen t.now)) t.now.index.now) result }
{
    let s = t.settings;
    let store = s.store;
    let loan = book::next_place_in(t.loans[PLACES_AT], t.index);
    let vacant = t.chunks[CHUNKS_AT] < store.chunks as u64;
    if !(is_place(s, loan) & vacant) {
        return Err(Refusal::Full);
    }
    let z = rounding::grow(words::word(t.head, CHUNK_SIZE_AT), size, s.last);
    let given = t.loans[GIVEN_AT] < u64::MAX;
    let made = t.chunks[MADE_AT] < u64::MAX;
    if !(given & (heap::bears(h, z) & made)) {
        return Err(Refusal::Count);
    }
    if objects == 0 {
        return Err(Refusal::Objects);
    }
    Ok(Plan::Buy(Buying {
        order: z,
        size,
        mask,
        loan,
    }))
}

// Of tables that have every word that is read. `h` and `objects` are parts of a share, and come without it: no test here looks at
// the rest.
pub fn decide(
    t: &FreeListView<'_>,
    h: Heap,
    objects: u32,
    size: u64,
    mask: u64,
) -> Result<Plan, Refusal>
    requires { RegionsFit t.now.settings t.now.regions.now × Reads t.now.settings.store.loans (places_in (seen t.now)) t.now.loans.now t.now.index.now × (chunks_at < length t.now.chunks.now) }
    ensures result_value { plan_of result ≡ decide_ask t.now.settings h objects size mask (seen t.now) }
    ensures planned { Planned t.now.settings size mask (seen t.now) result }
{
    if !counter::is_alignment(mask) {
        return Err(Refusal::Mask);
    }
    if !is_size(t.settings, size) {
        return Err(Refusal::Size);
    }
    let n = freelist_regions::size_for(t.settings, size);
    let m = freelist_regions::mask_for(t.settings, mask);
    let k = freelist_regions::region_count(t.regions);
    match freelist_regions::find_fit(t.regions, k, m, n) {
        Some(fit) => decide_take(t, fit),
        None => decide_buy(t, h, objects, n, m),
    }
}
