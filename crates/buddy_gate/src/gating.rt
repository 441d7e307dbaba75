// The gate of every call: the tests 1 to 4, in that order.
ghost use Rattle.std.specs.Prelude.{◌≡◌, [], ◌+◌, ◌*◌, ◌^◌, ◌≤◌, ◌<◌, get_or};
ghost use Rattle.words.specs.Words.{cell_of};
ghost use Rattle.counter.specs.Gate.{verdict_of};
ghost use Rattle.counter.specs.InTable.{BuddyIn};
ghost use Rattle.counter.specs.Limits.{chunks_most, minimal_bits, levels_most};
ghost use Rattle.store_rules.proofs.Holders.{holder};
ghost use Rattle.store_rules.specs.Tests.{covers_ok};
ghost use Rattle.buddy_levels.specs.Seen.{level_part};
ghost use Rattle.buddy_rules.specs.Seen.{seen};
ghost use Rattle.buddy_rules.specs.Tables.{Lengths, tables, lengths_ok, chunk_places_at, chunk_words, chunk_size_at};
ghost use Rattle.buddy_outcomes.specs.Gate.{in_table_ok, held_count, held_bytes, gate_of};
ghost use Rattle.buddy_outcomes.specs.SetUp.{fit_ok};
ghost use Rattle.buddy_gate.specs.Gates.{store_gate};

use book::ENTRY_WORDS;
use buddy_rules::{BuddyView, CHUNK_PLACES_AT, CHUNK_SIZE_AT, CHUNK_WORDS, COLUMNS, HEAD_WORDS};
use counter::{BuddySettings, Heap, Refusal};
use store_rules::{LOAN_WORDS, Share};

// Whether each table is as long as the settings ask. It and test 1 take table by table what a view of them then holds.
pub fn lengths_fit(
    s: BuddySettings,
    head: &[u64],
    loans: &[u64],
    chunks: &[u64],
    index: &[u64],
    tree: &[u64],
) -> bool
    requires { BuddyIn s }
    ensures { result ≡ lengths_ok s (tables head.now loans.now chunks.now index.now tree.now) }
{
    let own = s.store;
    let room = buddy_levels::tree_words(s.pairs, own.chunks);
    (head.len() == HEAD_WORDS)
        & ((loans.len() == LOAN_WORDS + LOAN_WORDS * own.loans)
            & ((chunks.len() == CHUNK_WORDS + CHUNK_WORDS * own.chunks)
                & ((index.len()
                    == ENTRY_WORDS + ENTRY_WORDS * own.loans + COLUMNS * (own.loans + 1))
                    & (tree.len() == room))))
}

// Test 1 of a set-up: the settings, and every table's length.
pub fn is_fit(
    s: BuddySettings,
    head: &[u64],
    loans: &[u64],
    chunks: &[u64],
    index: &[u64],
    tree: &[u64],
) -> bool
    ensures { result ≡ fit_ok s (tables head.now loans.now chunks.now index.now tree.now) }
{
    if s.in_table() {
        lengths_fit(s, head, loans, chunks, index, tree)
    } else {
        false
    }
}

// Test 1: every value, and every table's length.
pub fn is_in_table(
    s: BuddySettings,
    share: Share,
    head: &[u64],
    loans: &[u64],
    chunks: &[u64],
    index: &[u64],
    tree: &[u64],
) -> bool
    ensures { result ≡ in_table_ok s (holder s.store share) (tables head.now loans.now chunks.now index.now tree.now) }
{
    if s.in_table() {
        let heap = share.heap;
        let fit = lengths_fit(s, head, loans, chunks, index, tree);
        share.bounded & (counter::heap_in_table(heap) & fit)
    } else {
        false
    }
}

// How many chunks stand at places, and how many bytes they have.
#[derive(Clone, Copy)]
struct Held {
    count: u64,
    bytes: u64,
}

// Those at the first n places.
fn held_at(chunks: &[u64], n: u64) -> Held
    requires { (n ≤ chunks_most) × ((c : _) → c < n → get_or chunks.now (cell_of chunk_size_at chunk_words c) 0 ≤ 2 ^ (minimal_bits + levels_most)) × (n ≡ get_or chunks.now chunk_places_at 0) }
    ensures count { result.count ≡ held_count (level_part 0 chunks.now []) n }
    ensures bytes { result.bytes ≡ held_bytes (level_part 0 chunks.now []) n }
{
    let mut count = 0;
    let mut bytes = 0;
    for c in 0..n {
        let size = words::cell(chunks, CHUNK_SIZE_AT, CHUNK_WORDS, c as usize);
        if size != 0 {
            count += 1;
        }
        bytes += size;
    }
    Held { count, bytes }
}

// Test 4, of the store's own heap.
pub fn is_covered(h: Heap, objects: u32, chunks: &[u64]) -> bool
    requires { (get_or chunks.now chunk_places_at 0 ≤ chunks_most) × ((c : _) → c < get_or chunks.now chunk_places_at 0 → get_or chunks.now (cell_of chunk_size_at chunk_words c) 0 ≤ 2 ^ (minimal_bits + levels_most)) }
    ensures { result ≡ covers_ok h objects (held_count (level_part 0 chunks.now []) (get_or chunks.now chunk_places_at 0)) (held_bytes (level_part 0 chunks.now []) (get_or chunks.now chunk_places_at 0)) }
{
    let held = held_at(chunks, words::word(chunks, CHUNK_PLACES_AT));
    store_accounts::covers(h, objects, held.count, held.bytes)
}

// Tests 3 and 4: the store is sound, and the account covers it.
fn gate_store(v: &BuddyView<'_>, h: Heap, objects: u32) -> Result<(), Refusal>
    requires { Lengths v.now.settings (seen v.now) }
    ensures { verdict_of result ≡ store_gate v.now.settings h objects (seen v.now) }
{
    if !buddy_test::is_sound(v) {
        return Err(Refusal::Torn);
    }
    if !is_covered(h, objects, v.chunks) {
        return Err(Refusal::Account);
    }
    Ok(())
}

// The gate of an ask and a return. `list` says whether a release list is long enough.
pub fn gate(
    s: BuddySettings,
    share: Share,
    list: bool,
    head: &[u64],
    loans: &[u64],
    chunks: &[u64],
    index: &[u64],
    tree: &[u64],
) -> Result<(), Refusal>
    ensures { verdict_of result ≡ gate_of s (holder s.store share) (tables head.now loans.now chunks.now index.now tree.now) list }
{
    let lent = is_in_table(s, share, head, loans, chunks, index, tree);
    if !(lent & list) {
        return Err(Refusal::Setup);
    }
    if !share.idle {
        return Err(Refusal::Order);
    }
    let v = BuddyView {
        settings: s,
        head,
        loans,
        chunks,
        index,
        tree,
    };
    gate_store(&v, share.heap, share.objects)
}
