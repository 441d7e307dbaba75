// What each call comes to: the gate, and then the tests behind it. Reads only.
ghost use Rattle.std.specs.Prelude.{◌≡◌};
ghost use Rattle.counter.specs.Gate.{verdict_of};
ghost use Rattle.store_rules.specs.Outcomes.{list_ok};
ghost use Rattle.store_rules.proofs.Holders.{holding, holder};
ghost use Rattle.returning.specs.Backs.{back_of};
ghost use Rattle.buddy_rules.specs.Tables.{tables};
ghost use Rattle.buddy_outcomes.specs.Ask.{plan_ask};
ghost use Rattle.buddy_outcomes.specs.Deliver.{plan_deliver};
ghost use Rattle.buddy_outcomes.specs.Return.{plan_return};
ghost use Rattle.buddy_outcomes.specs.SetUp.{plan_set_up};
ghost use Rattle.buddy_decide.specs.Plans.{plan_of, Planned};
ghost use Rattle.buddy.specs.Deliveries.{delivery_of};
ghost use Rattle.buddy.specs.Ready.{Delivers};

use buddy_decide::{Buying, Plan, Tried};
use buddy_rules::BuddyView;
use counter::{Block, BuddySettings, OpenOrder, Outcome, Refusal};
use store::Coming;
use store_rules::Share;

pub fn plan_set_up(
    s: BuddySettings,
    head: &[u64],
    loans: &[u64],
    chunks: &[u64],
    index: &[u64],
    tree: &[u64],
) -> Result<(), Refusal>
    ensures { verdict_of result ≡ plan_set_up s (tables head.now loans.now chunks.now index.now tree.now) }
{
    if buddy_gate::is_fit(s, head, loans, chunks, index, tree) {
        return Ok(());
    }
    Err(Refusal::Setup)
}

// Heap, objects and chunks are looked at only where a chunk is needed.
pub fn plan_ask(
    s: BuddySettings,
    share: Share,
    size: u64,
    mask: u64,
    head: &[u64],
    loans: &[u64],
    chunks: &[u64],
    index: &[u64],
    tree: &[u64],
) -> Result<Plan, Refusal>
    ensures result_value { plan_of result ≡ plan_ask s (holder s.store share) size mask (tables head.now loans.now chunks.now index.now tree.now) }
    ensures planned { Planned s size mask (tables head.now loans.now chunks.now index.now tree.now) result }
{
    buddy_gate::gate(s, share, true, head, loans, chunks, index, tree)?;
    let v = BuddyView {
        settings: s,
        head,
        loans,
        chunks,
        index,
        tree,
    };
    match buddy_decide::try_held(&v, size, mask)? {
        Tried::Take(t) => Ok(Plan::Take(t)),
        Tried::Need(n) => buddy_decide::decide_buy(&v, share.heap, share.objects, n),
    }
}

// What a delivery comes to, with what its kept ask needs; a shut gate has no buying.
pub fn plan_deliver(
    s: BuddySettings,
    share: Share,
    order: OpenOrder,
    o: Outcome,
    head: &[u64],
    loans: &[u64],
    chunks: &[u64],
    index: &[u64],
    tree: &[u64],
) -> Result<(Coming, Buying), Refusal>
    ensures result_value { delivery_of result ≡ plan_deliver s (holding s.store share order) o (tables head.now loans.now chunks.now index.now tree.now) }
    ensures delivers { Delivers s (tables head.now loans.now chunks.now index.now tree.now) result }
{
    let b = buddy_gate::gate_delivery(s, share, order, head, loans, chunks, index, tree)?;
    let coming = buddy_decide::decide_delivery(order, o, chunks)?;
    Ok((coming, b))
}

// The release list has to hold the chunk limit.
pub fn plan_return(
    s: BuddySettings,
    share: Share,
    b: Block,
    head: &[u64],
    loans: &[u64],
    chunks: &[u64],
    index: &[u64],
    tree: &[u64],
    list: &[u64],
) -> Result<usize, Refusal>
    ensures { back_of result ≡ plan_return s (holder s.store share) b (tables head.now loans.now chunks.now index.now tree.now) (list_ok s.store list.now) }
{
    let long = s.store.chunks <= list.len();
    buddy_gate::gate(s, share, long, head, loans, chunks, index, tree)?;
    buddy_decide::decide_return(s, b, loans, index)
}
