// A free-list store's calls, told of its share of the account: each planned, and then carried out.
ghost use Rattle.std.specs.Prelude.{◌≡◌};
ghost use Rattle.counter.specs.Paper.{ask_said, deliver_said, release_said};
ghost use Rattle.store_rules.specs.Outcomes.{out, listed};
ghost use Rattle.store_rules.specs.Shares.{ask_left};
ghost use Rattle.store_rules.proofs.Holders.{holding, holder};
ghost use Rattle.freelist_rules.specs.Tables.{tables};
ghost use Rattle.freelist_outcomes.specs.Ask.{ask_of};
ghost use Rattle.freelist_outcomes.specs.Deliver.{deliver_of};
ghost use Rattle.freelist_outcomes.specs.Return.{return_of, clean_up_of};

use counter::{Block, FreeListSettings, Granted, OpenOrder, Outcome, Refused};
use store_rules::{DeliveredShare, ReleasedShare, Share};

// An ask: a block, an order, or a refusal.
pub fn ask(
    s: FreeListSettings,
    share: Share,
    size: u64,
    mask: u64,
    head: &mut [u64],
    loans: &mut [u64],
    chunks: &[u64],
    index: &mut [u64],
    regions: &mut [u64],
) -> Result<Granted, Refused>
    ensures { out (ask_said result) (ask_left (holder s.store share) size mask (ask_said result)) (tables head.new loans.new chunks.now index.new regions.new) ≡ ask_of s (holder s.store share) size mask (tables head.old loans.old chunks.now index.old regions.old) }
{
    let plan = crate::plans::plan_ask(s, share, size, mask, head, loans, chunks, index, regions);
    crate::carries::carry_ask(s, plan, head, loans, chunks, index, regions)
}

// A delivery: the chunk is added and lent from, or the order is lost.
pub fn deliver(
    s: FreeListSettings,
    share: Share,
    order: OpenOrder,
    o: Outcome,
    head: &mut [u64],
    loans: &mut [u64],
    chunks: &mut [u64],
    index: &mut [u64],
    regions: &mut [u64],
) -> DeliveredShare
    ensures { out (deliver_said result.answer) (holding s.store result.share result.order) (tables head.new loans.new chunks.new index.new regions.new) ≡ deliver_of s (holding s.store share order) o (tables head.old loans.old chunks.old index.old regions.old) }
{
    let plan = crate::plans::plan_deliver(s, share, order, o, head, loans, chunks, index, regions);
    crate::carries::carry_deliver(s, share, order, plan, head, loans, chunks, index, regions)
}

// A block comes back. The memory numbers of the chunks that go then stand at the front of `list`.
pub fn return_block(
    s: FreeListSettings,
    share: Share,
    b: Block,
    head: &[u64],
    loans: &mut [u64],
    chunks: &mut [u64],
    index: &mut [u64],
    regions: &mut [u64],
    list: &mut [u64],
) -> ReleasedShare
    ensures { listed (release_said result.answer) (holder s.store result.share) (tables head.now loans.new chunks.new index.new regions.new) list.new ≡ return_of s (holder s.store share) b (tables head.now loans.old chunks.old index.old regions.old) list.old }
{
    let plan = crate::plans::plan_return(s, share, b, head, loans, chunks, index, regions, list);
    crate::carries::carry_return(s, share, b, plan, head, loans, chunks, index, regions, list)
}

// Every wholly free chunk goes.
pub fn clean_up(
    s: FreeListSettings,
    share: Share,
    head: &[u64],
    loans: &[u64],
    chunks: &mut [u64],
    index: &[u64],
    regions: &mut [u64],
    list: &mut [u64],
) -> ReleasedShare
    ensures { listed (release_said result.answer) (holder s.store result.share) (tables head.now loans.now chunks.new index.now regions.new) list.new ≡ clean_up_of s (holder s.store share) (tables head.now loans.now chunks.old index.now regions.old) list.old }
{
    let plan = crate::plans::plan_clean_up(s, share, head, loans, chunks, index, regions, list);
    crate::carries::carry_clean_up(s, share, plan, head, loans, chunks, index, regions, list)
}
