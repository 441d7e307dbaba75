// A buddy store's calls, told of its share of the account: each planned, and then carried out.
ghost use Rattle.std.specs.Prelude.{◌≡◌};
ghost use Rattle.counter.specs.Paper.{ask_said, deliver_said, release_said};
ghost use Rattle.store_rules.specs.Outcomes.{out, listed};
ghost use Rattle.store_rules.specs.Shares.{ask_left};
ghost use Rattle.store_rules.proofs.Holders.{holding, holder};
ghost use Rattle.buddy_rules.specs.Tables.{tables};
ghost use Rattle.buddy_outcomes.specs.Ask.{ask_of};
ghost use Rattle.buddy_outcomes.specs.Deliver.{deliver_of};
ghost use Rattle.buddy_outcomes.specs.Return.{return_of};

use counter::{Block, BuddySettings, Granted, OpenOrder, Outcome, Refused};
use store_rules::{DeliveredShare, ReleasedShare, Share};

pub fn ask(
    s: BuddySettings,
    share: Share,
    size: u64,
    mask: u64,
    head: &mut [u64],
    loans: &mut [u64],
    chunks: &[u64],
    index: &mut [u64],
    tree: &mut [u64],
) -> Result<Granted, Refused>
    ensures { out (ask_said result) (ask_left (holder s.store share) size mask (ask_said result)) (tables head.new loans.new chunks.now index.new tree.new) ≡ ask_of s (holder s.store share) size mask (tables head.old loans.old chunks.now index.old tree.old) }
{
    let plan = crate::plans::plan_ask(s, share, size, mask, head, loans, chunks, index, tree);
    crate::carries::carry_ask(s, plan, head, loans, index, tree)
}

pub fn deliver(
    s: BuddySettings,
    share: Share,
    order: OpenOrder,
    o: Outcome,
    head: &mut [u64],
    loans: &mut [u64],
    chunks: &mut [u64],
    index: &mut [u64],
    tree: &mut [u64],
) -> DeliveredShare
    ensures { out (deliver_said result.answer) (holding s.store result.share result.order) (tables head.new loans.new chunks.new index.new tree.new) ≡ deliver_of s (holding s.store share order) o (tables head.old loans.old chunks.old index.old tree.old) }
{
    let plan = crate::plans::plan_deliver(s, share, order, o, head, loans, chunks, index, tree);
    crate::carries::carry_deliver(s, share, order, plan, head, loans, chunks, index, tree)
}

// A block comes back. The memory number of its chunk, where that goes, then stands at the front of `list`.
pub fn return_block(
    s: BuddySettings,
    share: Share,
    b: Block,
    head: &[u64],
    loans: &mut [u64],
    chunks: &mut [u64],
    index: &mut [u64],
    tree: &mut [u64],
    list: &mut [u64],
) -> ReleasedShare
    ensures { listed (release_said result.answer) (holder s.store result.share) (tables head.now loans.new chunks.new index.new tree.new) list.new ≡ return_of s (holder s.store share) b (tables head.now loans.old chunks.old index.old tree.old) list.old }
{
    let plan = crate::plans::plan_return(s, share, b, head, loans, chunks, index, tree, list);
    crate::carries::carry_return(s, share, b, plan, head, loans, chunks, index, tree, list)
}
