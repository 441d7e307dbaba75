// The gate of a delivery: the tests 1 to 4, of which the third tests the kept ask again.
ghost use Rattle.std.specs.Prelude.{true, ◌≡◌, ◌*◌, ◌≤◌, Some, get_or};
ghost use Rattle.words.specs.Rows.{rows};
ghost use Rattle.counter.specs.Limits.{chunks_most, chunk_size_most};
ghost use Rattle.counter.specs.declared.account.KeptOrder.{KeptOrder};
ghost use Rattle.store_rules.specs.Orders.{order_from, same_order};
ghost use Rattle.store_rules.proofs.Holders.{holding};
ghost use Rattle.freelist_rules.specs.Records.{chunk_row};
ghost use Rattle.freelist_rules.specs.Pieces.{total};
ghost use Rattle.freelist_rules.specs.Tables.{lengths_ok, tables, chunks_at};
ghost use Rattle.freelist_rules.specs.Seen.{seen};
ghost use Rattle.freelist_outcomes.specs.Deliver.{deliver_gate_of};
ghost use Rattle.freelist_gate.specs.Gates.{bought_gate, kept_gate, pass_of, BoughtAs, BoughtFor};

use crate::gating::{is_covered, is_in_table};
use counter::{FreeListSettings, Heap, KeptOrder, OpenOrder, Order, Refusal};
use freelist_decide::{Buying, Plan};
use freelist_rules::FreeListView;
use store_rules::Share;

// Whether the chunk that the kept ask comes to is still the one that was ordered.
fn is_still(s: FreeListSettings, order: Order, size: u64) -> bool
    ensures { result ≡ same_order order (order_from s.store size) }
{
    let store = s.store;
    store_accounts::same_order(order, store_accounts::order_from(store, size))
}

// The rest of tests 3 and 4, where the kept ask comes to b.
fn gate_bought(
    s: FreeListSettings,
    h: Heap,
    objects: u32,
    order: Order,
    b: Buying,
    chunks: &[u64],
) -> Result<Buying, Refusal>
    requires { (get_or chunks.now chunks_at 0 ≤ chunks_most) × ((j : _) → j ≤ get_or chunks.now chunks_at 0 → total (λ c. c.size) (rows chunk_row j chunks.now) ≤ j * chunk_size_most) }
    ensures result_value { pass_of result ≡ bought_gate s h objects order b.order chunks.now }
    ensures bought_as { BoughtAs order b result }
{
    if !is_still(s, order, b.order) {
        return Err(Refusal::Torn);
    }
    if !is_covered(h, objects, chunks) {
        return Err(Refusal::Account);
    }
    Ok(b)
}

// Tests 3 and 4, where k is the order.
fn gate_kept(t: &FreeListView<'_>, h: Heap, objects: u32, k: KeptOrder) -> Result<Buying, Refusal>
    requires { lengths_ok t.now.settings (seen t.now) ≡ true }
    ensures result_value { pass_of result ≡ kept_gate t.now.settings h objects k (seen t.now) }
    ensures bought_for { BoughtFor t.now.settings k (seen t.now) result }
{
    if !freelist_test::is_sound(t) {
        return Err(Refusal::Torn);
    }
    let ask = k.ask;
    let Ok(plan) = freelist_decide::decide(t, h, objects, ask.size, ask.mask) else {
        return Err(Refusal::Torn);
    };
    match plan {
        Plan::Take(_) => Err(Refusal::Torn),
        Plan::Buy(b) => gate_bought(t.settings, h, objects, k.order, b, t.chunks),
    }
}

// An order has to be open for this store; a passed gate tells what the kept ask comes to.
pub fn gate_delivery(
    s: FreeListSettings,
    share: Share,
    order: OpenOrder,
    head: &[u64],
    loans: &[u64],
    chunks: &[u64],
    index: &[u64],
    regions: &[u64],
) -> Result<Buying, Refusal>
    ensures result_value { pass_of result ≡ deliver_gate_of s (holding s.store share order) (tables head.now loans.now chunks.now index.now regions.now) }
    ensures bought_for { (k : KeptOrder) → order ≡ Some k → BoughtFor s k (tables head.now loans.now chunks.now index.now regions.now) result }
{
    if !is_in_table(s, share, head, loans, chunks, index, regions) {
        return Err(Refusal::Setup);
    }
    let own = s.store;
    if !store_accounts::is_open_for(own.number, order) {
        return Err(Refusal::Order);
    }
    let view = FreeListView {
        settings: s,
        head,
        loans,
        chunks,
        index,
        regions,
    };
    match order {
        None => Err(Refusal::Order),
        Some(k) => gate_kept(&view, share.heap, share.objects, k),
    }
}
