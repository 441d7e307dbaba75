// What was planned, carried out: the tables written, and answered.
ghost use Rattle.std.specs.Prelude.{◌≡◌, List, [], ℕ, Ok};
ghost use Rattle.counter.specs.Gate.{verdict_of};
ghost use Rattle.counter.specs.Paper.{number_of, free_of, set_up_said, ask_said, deliver_said, release_said};
ghost use Rattle.counter.specs.declared.account.Account.{Account};
ghost use Rattle.counter.specs.Open as Open;
ghost use Rattle.store_rules.specs.Delivery.{kept, lost};
ghost use Rattle.store_rules.specs.Outcomes.{out, listed};
ghost use Rattle.store_rules.specs.Shares.{ask_left};
ghost use Rattle.store_rules.proofs.Holders.{holding, holder};
ghost use Rattle.store.specs.Comings.{coming_of};
ghost use Rattle.returning.specs.Backs.{back_of};
ghost use Rattle.buddy_rules.specs.Tables.{tables};
ghost use Rattle.buddy_outcomes.specs.Ask.{carry_ask};
ghost use Rattle.buddy_outcomes.specs.Deliver.{carry_fate, carry_deliver};
ghost use Rattle.buddy_outcomes.specs.Return.{carry_return};
ghost use Rattle.buddy_outcomes.specs.SetUp.{begun, carry_set_up};
ghost use Rattle.buddy_decide.specs.Plans.{plan_of, Planned};
ghost use Rattle.buddy.specs.Deliveries.{delivery_of};
ghost use Rattle.buddy.specs.Ready.{SetUpReady, AskReady, KeepReady, LoseReady, ComingReady, DeliverReady, ReturnReady};

use buddy_decide::{Buying, Plan};
use counter::{Block, BuddySettings, Granted, KeptOrder, OpenOrder, Refusal, Refused};
use store::{Coming, Loss};
use store_rules::{DeliveredShare, ReleasedShare, Share};

pub fn carry_set_up(
    s: BuddySettings,
    plan: Result<(), Refusal>,
    head: &mut [u64],
    loans: &mut [u64],
    chunks: &mut [u64],
    index: &mut [u64],
    tree: &mut [u64],
) -> Result<(), Refused>
    requires { SetUpReady s (tables head.old loans.old chunks.old index.old tree.old) plan }
    ensures { begun (set_up_said result) (tables head.new loans.new chunks.new index.new tree.new) ≡ carry_set_up s (tables head.old loans.old chunks.old index.old tree.old) (verdict_of plan) }
{
    match plan {
        Err(refusal) => Err(Refused {
            refusal: refusal,
            free: None,
        }),
        Ok(()) => {
            buddy_grow::fresh(s, head, loans, chunks, index, tree);
            Ok(())
        }
    }
}

// Whatever the account, the chunks, and the size and mask that this is the plan of.
pub fn carry_ask(
    s: BuddySettings,
    plan: Result<Plan, Refusal>,
    head: &mut [u64],
    loans: &mut [u64],
    index: &mut [u64],
    tree: &mut [u64],
) -> Result<Granted, Refused>
    requires { AskReady s (tables head.old loans.old [] index.old tree.old) plan }
    ensures { (a : Account) (size mask : ℕ) (chunks : List ℕ) → Planned s size mask (tables head.old loans.old chunks index.old tree.old) plan → out (ask_said result) (ask_left a size mask (ask_said result)) (tables head.new loans.new chunks index.new tree.new) ≡ carry_ask s a size mask (tables head.old loans.old chunks index.old tree.old) (plan_of plan) }
{
    match plan {
        Err(refusal) => store::refuse_ask(refusal),
        Ok(found) => match found {
            Plan::Lack(levels) => {
                buddy_grow::grow(s, levels, head, tree);
                store::refuse_ask(Refusal::Objects)
            }
            Plan::Take(t) => {
                let level = t.level as usize;
                let from = t.from as usize;
                let l = buddy_lend::lend(
                    s, t.size, level, from, t.pair, t.loan, loans, index, tree,
                );
                store::answer_block(l)
            }
            Plan::Buy(b) => {
                buddy_grow::grow(s, b.levels, head, tree);
                store::answer_order(s.store, b.order)
            }
        },
    }
}

// The memory is a chunk, whose left end serves the kept ask.
fn keep_chunk(
    s: BuddySettings,
    share: Share,
    k: KeptOrder,
    memory: u64,
    b: Buying,
    head: &mut [u64],
    loans: &mut [u64],
    chunks: &mut [u64],
    index: &mut [u64],
    tree: &mut [u64],
) -> DeliveredShare
    requires { KeepReady s k memory (tables head.old loans.old chunks.old index.old tree.old) b }
    ensures { (order : Open.OpenOrder) → out (deliver_said result.answer) (holding s.store result.share result.order) (tables head.new loans.new chunks.new index.new tree.new) ≡ carry_fate s (holding s.store share order) k (tables head.old loans.old chunks.old index.old tree.old) (kept memory) }
{
    let order = k.order;
    let loan = b.loan;
    let chunk = b.chunk;
    buddy_grow::grow(s, b.levels, head, tree);
    let charged = store_accounts::charged(share, order.size);
    let l = buddy_lend::serve(
        s,
        b.size,
        b.level as usize,
        loan,
        chunk,
        memory,
        order.size,
        head,
        loans,
        chunks,
        index,
        tree,
    );
    store::deliver_block(charged, l)
}

// The order is closed by a failure, and leaves so many levels.
fn lose(
    s: BuddySettings,
    share: Share,
    k: KeptOrder,
    l: Loss,
    levels: u64,
    head: &mut [u64],
    tree: &mut [u64],
) -> DeliveredShare
    requires { LoseReady s k (tables head.old [] [] [] []) levels }
    ensures { (order : Open.OpenOrder) → out (deliver_said result.answer) (holding s.store result.share result.order) (tables head.new [] [] [] tree.new) ≡ carry_fate s (holding s.store share order) k (tables head.old [] [] [] tree.old) (lost (number_of l.refusal) l.charged (free_of l.free)) }
{
    buddy_grow::grow(s, levels, head, tree);
    store::lose_order(share, k, l)
}

// Kept or lost, the levels are as the order raised them.
fn carry_coming(
    s: BuddySettings,
    share: Share,
    order: OpenOrder,
    coming: Coming,
    b: Buying,
    head: &mut [u64],
    loans: &mut [u64],
    chunks: &mut [u64],
    index: &mut [u64],
    tree: &mut [u64],
) -> DeliveredShare
    requires { ComingReady s (tables head.old loans.old chunks.old index.old tree.old) b coming }
    ensures { out (deliver_said result.answer) (holding s.store result.share result.order) (tables head.new loans.new chunks.new index.new tree.new) ≡ carry_deliver s (holding s.store share order) (tables head.old loans.old chunks.old index.old tree.old) (coming_of (Ok coming)) }
{
    match coming {
        Coming::Keep(c) => keep_chunk(
            s, share, c.kept, c.memory, b, head, loans, chunks, index, tree,
        ),
        Coming::Lose(c) => lose(s, share, c.kept, c.loss, b.levels, head, tree),
    }
}

pub fn carry_deliver(
    s: BuddySettings,
    share: Share,
    order: OpenOrder,
    plan: Result<(Coming, Buying), Refusal>,
    head: &mut [u64],
    loans: &mut [u64],
    chunks: &mut [u64],
    index: &mut [u64],
    tree: &mut [u64],
) -> DeliveredShare
    requires { DeliverReady s (tables head.old loans.old chunks.old index.old tree.old) plan }
    ensures { out (deliver_said result.answer) (holding s.store result.share result.order) (tables head.new loans.new chunks.new index.new tree.new) ≡ carry_deliver s (holding s.store share order) (tables head.old loans.old chunks.old index.old tree.old) (delivery_of plan) }
{
    match plan {
        Err(r) => store::refuse_delivery(share, order, r),
        Ok((coming, b)) => {
            carry_coming(s, share, order, coming, b, head, loans, chunks, index, tree)
        }
    }
}

// The memory number of the block's chunk, where that goes, then stands at the front of `list`.
pub fn carry_return(
    s: BuddySettings,
    share: Share,
    b: Block,
    plan: Result<usize, Refusal>,
    head: &[u64],
    loans: &mut [u64],
    chunks: &mut [u64],
    index: &mut [u64],
    tree: &mut [u64],
    list: &mut [u64],
) -> ReleasedShare
    requires { ReturnReady s share b (tables head.now loans.old chunks.old index.old tree.old) plan }
    ensures { listed (release_said result.answer) (holder s.store result.share) (tables head.now loans.new chunks.new index.new tree.new) list.new ≡ carry_return s (holder s.store share) b (tables head.now loans.old chunks.old index.old tree.old) list.old (back_of plan) }
{
    match plan {
        Err(refusal) => store::refuse_return(share, refusal),
        Ok(at) => {
            let f = buddy_back::take_back(s, b, at, head, loans, chunks, index, tree, list);
            store::settle(share, f.count, f.bytes)
        }
    }
}
