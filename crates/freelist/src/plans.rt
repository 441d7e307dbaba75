// What each call comes to: the gate, and then the tests behind it. Reads only. The tables come one by one: a view of them can be had
// only where test 1 has passed.
ghost use Rattle.std.specs.Prelude.{◌≡◌};
ghost use Rattle.counter.specs.Gate.{verdict_of};
ghost use Rattle.store_rules.specs.Outcomes.{list_ok};
ghost use Rattle.store_rules.proofs.Holders.{holding, holder};
ghost use Rattle.returning.specs.Backs.{back_of};
ghost use Rattle.freelist_rules.specs.Tables.{tables};
ghost use Rattle.freelist_outcomes.specs.Ask.{plan_ask};
ghost use Rattle.freelist_outcomes.specs.Deliver.{plan_deliver};
ghost use Rattle.freelist_outcomes.specs.Return.{plan_return, plan_clean_up};
ghost use Rattle.freelist_outcomes.specs.SetUp.{plan_set_up};
ghost use Rattle.freelist_decide.specs.Plans.{plan_of, Planned};
ghost use Rattle.freelist.specs.Deliveries.{delivery_of};
ghost use Rattle.freelist.specs.Ready.{Delivers};

use counter::{Block, FreeListSettings, OpenOrder, Outcome, Refusal};
use freelist_decide::{Buying, Plan};
use freelist_rules::FreeListView;
use store::Coming;
use store_rules::Share;

// What a delivery comes to, with what its kept ask came to.
#[derive(Clone, Copy)]
pub struct Delivery {
    pub coming: Coming,
    pub bought: Buying,
}

// 1, but for the account, which set-up does not take.
pub fn plan_set_up(
    s: FreeListSettings,
    head: &[u64],
    loans: &[u64],
    chunks: &[u64],
    index: &[u64],
    regions: &[u64],
) -> Result<(), Refusal>
    ensures { verdict_of result ≡ plan_set_up s (tables head.now loans.now chunks.now index.now regions.now) }
{
    if freelist_gate::is_fit(s, head, loans, chunks, index, regions) {
        Ok(())
    } else {
        Err(Refusal::Setup)
    }
}

pub fn plan_ask(
    s: FreeListSettings,
    share: Share,
    size: u64,
    mask: u64,
    head: &[u64],
    loans: &[u64],
    chunks: &[u64],
    index: &[u64],
    regions: &[u64],
) -> Result<Plan, Refusal>
    ensures result_value { plan_of result ≡ plan_ask s (holder s.store share) size mask (tables head.now loans.now chunks.now index.now regions.now) }
    ensures planned { Planned s size mask (tables head.now loans.now chunks.now index.now regions.now) result }
{
    freelist_gate::gate(s, share, true, head, loans, chunks, index, regions)?;
    let view = FreeListView {
        settings: s,
        head,
        loans,
        chunks,
        index,
        regions,
    };
    freelist_decide::decide(&view, share.heap, share.objects, size, mask)
}

pub fn plan_deliver(
    s: FreeListSettings,
    share: Share,
    order: OpenOrder,
    o: Outcome,
    head: &[u64],
    loans: &[u64],
    chunks: &[u64],
    index: &[u64],
    regions: &[u64],
) -> Result<Delivery, Refusal>
    ensures result_value { delivery_of result ≡ plan_deliver s (holding s.store share order) o (tables head.now loans.now chunks.now index.now regions.now) }
    ensures delivers { Delivers s (tables head.now loans.now chunks.now index.now regions.now) result }
{
    let bought = freelist_gate::gate_delivery(
        s, share, order, head, loans, chunks, index, regions,
    )?;
    let coming = freelist_decide::decide_delivery(order, o, chunks)?;
    Ok(Delivery { coming, bought })
}

// The release list has to hold the chunk limit.
pub fn plan_return(
    s: FreeListSettings,
    share: Share,
    b: Block,
    head: &[u64],
    loans: &[u64],
    chunks: &[u64],
    index: &[u64],
    regions: &[u64],
    list: &[u64],
) -> Result<usize, Refusal>
    ensures { back_of result ≡ plan_return s (holder s.store share) b (tables head.now loans.now chunks.now index.now regions.now) (list_ok s.store list.now) }
{
    let long = s.store.chunks <= list.len();
    freelist_gate::gate(s, share, long, head, loans, chunks, index, regions)?;
    freelist_decide::decide_return(s, b, loans, index)
}

// The same list; there is no test behind the gate.
pub fn plan_clean_up(
    s: FreeListSettings,
    share: Share,
    head: &[u64],
    loans: &[u64],
    chunks: &[u64],
    index: &[u64],
    regions: &[u64],
    list: &[u64],
) -> Result<(), Refusal>
    ensures { verdict_of result ≡ plan_clean_up s (holder s.store share) (tables head.now loans.now chunks.now index.now regions.now) (list_ok s.store list.now) }
{
    let own = s.store;
    let long = own.chunks <= list.len();
    freelist_gate::gate(s, share, long, head, loans, chunks, index, regions)
}
