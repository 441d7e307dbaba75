// The gate of a delivery: the tests 1 to 4, of which 3 tests the kept ask again. What that ask needs goes on to what carries it out.
ghost use Rattle.std.specs.Prelude.{◌≡◌, is_some};
ghost use Rattle.store_rules.specs.Orders.{leads_to};
ghost use Rattle.store_rules.proofs.Holders.{holding};
ghost use Rattle.buddy_rules.specs.Seen.{seen};
ghost use Rattle.buddy_rules.specs.Tables.{Lengths, tables};
ghost use Rattle.buddy_outcomes.specs.Ask.{decide_ask};
ghost use Rattle.buddy_outcomes.specs.Deliver.{deliver_gate_of};
ghost use Rattle.buddy_decide.specs.Sees.{ViewSees};
ghost use Rattle.buddy_gate.specs.Gates.{kept_gate, StillBuys, passing_of, PassingBuys, OpenBuys};

use buddy_decide::{Buying, Plan};
use buddy_rules::BuddyView;
use counter::{BuddySettings, Heap, KeptOrder, OpenOrder, Refusal};
use store_rules::Share;

// What the kept ask needs, where it still leads to the order that was told.
fn is_still(v: &BuddyView<'_>, h: Heap, objects: u32, k: KeptOrder) -> Option<Buying>
    requires { ViewSees v.now }
    ensures result_value { is_some result ≡ leads_to v.now.settings.store k.order (decide_ask v.now.settings h objects k.ask.size k.ask.mask (seen v.now)) }
    ensures still_buys { StillBuys v.now.settings k (seen v.now) result }
{
    let Ok(plan) = buddy_decide::decide(v, h, objects, k.ask.size, k.ask.mask) else {
        return None;
    };
    match plan {
        Plan::Lack(_) => None,
        Plan::Take(_) => None,
        Plan::Buy(b) => {
            let told = store_accounts::order_from(v.settings.store, b.order);
            if store_accounts::same_order(k.order, told) {
                Some(b)
            } else {
                None
            }
        }
    }
}

// Tests 3 and 4, where k is the order.
fn gate_kept(v: &BuddyView<'_>, h: Heap, objects: u32, k: KeptOrder) -> Result<Buying, Refusal>
    requires { Lengths v.now.settings (seen v.now) }
    ensures result_value { passing_of result ≡ kept_gate v.now.settings h objects k (seen v.now) }
    ensures passing_buys { PassingBuys v.now.settings k (seen v.now) result }
{
    if !buddy_test::is_sound(v) {
        return Err(Refusal::Torn);
    }
    let Some(b) = is_still(v, h, objects, k) else {
        return Err(Refusal::Torn);
    };
    if !crate::gating::is_covered(h, objects, v.chunks) {
        return Err(Refusal::Account);
    }
    Ok(b)
}

// An order has to be open for this store.
pub fn gate_delivery(
    s: BuddySettings,
    share: Share,
    order: OpenOrder,
    head: &[u64],
    loans: &[u64],
    chunks: &[u64],
    index: &[u64],
    tree: &[u64],
) -> Result<Buying, Refusal>
    ensures result_value { passing_of result ≡ deliver_gate_of s (holding s.store share order) (tables head.now loans.now chunks.now index.now tree.now) }
    ensures open_buys { OpenBuys s order (tables head.now loans.now chunks.now index.now tree.now) result }
{
    if !crate::gating::is_in_table(s, share, head, loans, chunks, index, tree) {
        return Err(Refusal::Setup);
    }
    let own = s.store;
    if !store_accounts::is_open_for(own.number, order) {
        return Err(Refusal::Order);
    }
    let v = BuddyView {
        settings: s,
        head,
        loans,
        chunks,
        index,
        tree,
    };
    match order {
        None => Err(Refusal::Order),
        Some(k) => gate_kept(&v, share.heap, share.objects, k),
    }
}
