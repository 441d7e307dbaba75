// The gate of every call: the tests 1 to 4, in that order. Up to test 1 the tables come one by one: no view of them can be had yet.
ghost use Rattle.std.specs.Prelude.{true, ◌≡◌, ◌*◌, ◌≤◌, get_or};
ghost use Rattle.words.specs.Rows.{rows};
ghost use Rattle.counter.specs.Gate.{verdict_of};
ghost use Rattle.counter.specs.InTable.{FreeListIn};
ghost use Rattle.counter.specs.Limits.{chunks_most, chunk_size_most};
ghost use Rattle.store_rules.proofs.Holders.{holder};
ghost use Rattle.store_rules.specs.Tests.{covers_ok};
ghost use Rattle.freelist_rules.specs.Records.{chunk_row};
ghost use Rattle.freelist_rules.specs.Pieces.{total};
ghost use Rattle.freelist_rules.specs.Tables.{tables, lengths_ok, chunks_at};
ghost use Rattle.freelist_rules.specs.Seen.{seen};
ghost use Rattle.freelist_outcomes.specs.Gate.{in_table_ok, gate_of};
ghost use Rattle.freelist_outcomes.specs.SetUp.{fit_ok};
ghost use Rattle.freelist_gate.specs.Gates.{store_gate};

use book::ENTRY_WORDS;
use counter::{FreeListSettings, Heap, Refusal};
use freelist_rules::{
    CHUNK_BYTES_AT, CHUNK_WORDS, CHUNKS_AT, COLUMNS, FreeListView, HEAD_WORDS, REGION_WORDS,
};
use store_rules::{LOAN_WORDS, Share};

pub fn lengths_fit(
    s: FreeListSettings,
    head: &[u64],
    loans: &[u64],
    chunks: &[u64],
    index: &[u64],
    regions: &[u64],
) -> bool
    requires { FreeListIn s }
    ensures { result ≡ lengths_ok s (tables head.now loans.now chunks.now index.now regions.now) }
{
    let store = s.store;
    (head.len() == HEAD_WORDS)
        & (loans.len() == LOAN_WORDS + LOAN_WORDS * store.loans)
        & (chunks.len() == CHUNK_WORDS + CHUNK_WORDS * store.chunks)
        & (index.len() == ENTRY_WORDS + ENTRY_WORDS * store.loans + COLUMNS * (store.loans + 1))
        & (regions.len() == REGION_WORDS + REGION_WORDS * (store.loans + store.chunks))
}

// Whether a store with these settings can be set up in these tables: test 1, but for the account.
pub fn is_fit(
    s: FreeListSettings,
    head: &[u64],
    loans: &[u64],
    chunks: &[u64],
    index: &[u64],
    regions: &[u64],
) -> bool
    ensures { result ≡ fit_ok s (tables head.now loans.now chunks.now index.now regions.now) }
{
    if s.in_table() {
        lengths_fit(s, head, loans, chunks, index, regions)
    } else {
        false
    }
}

// Test 1: every value, and every table's length.
pub fn is_in_table(
    s: FreeListSettings,
    share: Share,
    head: &[u64],
    loans: &[u64],
    chunks: &[u64],
    index: &[u64],
    regions: &[u64],
) -> bool
    ensures { result ≡ in_table_ok s (holder s.store share) (tables head.now loans.now chunks.now index.now regions.now) }
{
    if s.in_table() {
        let heap = share.heap;
        let fit = lengths_fit(s, head, loans, chunks, index, regions);
        share.bounded & (counter::heap_in_table(heap) & fit)
    } else {
        false
    }
}

// The bytes of the first k chunks.
fn chunk_bytes(chunks: &[u64], k: usize) -> u64
    requires { (k ≤ chunks_most) × ((j : _) → j ≤ k → total (λ c. c.size) (rows chunk_row j chunks.now) ≤ j * chunk_size_most) }
    ensures { result ≡ total (λ c. c.size) (rows chunk_row k chunks.now) }
{
    let mut sum = 0u64;
    for i in 0..k {
        sum += words::cell(chunks, CHUNK_BYTES_AT, CHUNK_WORDS, i);
    }
    sum
}

// Test 4, of the store's own heap.
pub fn is_covered(h: Heap, objects: u32, chunks: &[u64]) -> bool
    requires { (get_or chunks.now chunks_at 0 ≤ chunks_most) × ((j : _) → j ≤ get_or chunks.now chunks_at 0 → total (λ c. c.size) (rows chunk_row j chunks.now) ≤ j * chunk_size_most) }
    ensures { result ≡ covers_ok h objects (get_or chunks.now chunks_at 0) (total (λ c. c.size) (rows chunk_row (get_or chunks.now chunks_at 0) chunks.now)) }
{
    let k = words::word(chunks, CHUNKS_AT);
    store_accounts::covers(h, objects, k, chunk_bytes(chunks, k as usize))
}

// Tests 3 and 4: the store is sound, and the account covers it.
fn gate_store(t: &FreeListView<'_>, h: Heap, objects: u32) -> Result<(), Refusal>
    requires { lengths_ok t.now.settings (seen t.now) ≡ true }
    ensures { verdict_of result ≡ store_gate t.now.settings h objects (seen t.now) }
{
    if !freelist_test::is_sound(t) {
        return Err(Refusal::Torn);
    }
    if !is_covered(h, objects, t.chunks) {
        return Err(Refusal::Account);
    }
    Ok(())
}

// The gate of an ask, a return and a clean-up. `list` says whether a release list is long enough.
pub fn gate(
    s: FreeListSettings,
    share: Share,
    list: bool,
    head: &[u64],
    loans: &[u64],
    chunks: &[u64],
    index: &[u64],
    regions: &[u64],
) -> Result<(), Refusal>
    ensures { verdict_of result ≡ gate_of s (holder s.store share) (tables head.now loans.now chunks.now index.now regions.now) list }
{
    let lent = is_in_table(s, share, head, loans, chunks, index, regions);
    if !(lent & list) {
        return Err(Refusal::Setup);
    }
    if !share.idle {
        return Err(Refusal::Order);
    }
    let view = FreeListView {
        settings: s,
        head,
        loans,
        chunks,
        index,
        regions,
    };
    gate_store(&view, share.heap, share.objects)
}
