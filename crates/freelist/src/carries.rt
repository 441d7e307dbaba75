// Plans carried out: the tables written, and what is answered.
ghost use Rattle.std.specs.Prelude.{◌≡◌, true, Ok, [], ℕ};
ghost use Rattle.counter.specs.Gate.{verdict_of};
ghost use Rattle.counter.specs.Paper.{set_up_said, ask_said, deliver_said, release_said};
ghost use Rattle.counter.specs.declared.account.Account.{Account};
ghost use Rattle.counter.specs.Open.{OpenOrder};
ghost use Rattle.store_rules.specs.Delivery as Fates;
ghost use Rattle.store_rules.specs.Outcomes.{out, listed};
ghost use Rattle.store_rules.specs.Shares.{ask_left};
ghost use Rattle.store_rules.proofs.Holders.{holding, holder};
ghost use Rattle.store.specs.Comings.{coming_of};
ghost use Rattle.returning.specs.Backs.{back_of};
ghost use Rattle.freelist_rules.specs.Tables.{tables};
ghost use Rattle.freelist_outcomes.specs.Ask.{carry_ask};
ghost use Rattle.freelist_outcomes.specs.Deliver.{carry_fate, carry_deliver};
ghost use Rattle.freelist_outcomes.specs.Return.{given_tables, release_of, carry_return, carry_clean_up};
ghost use Rattle.freelist_outcomes.specs.SetUp.{begun, carry_set_up};
ghost use Rattle.freelist_decide.specs.Plans.{plan_of, Planned};
ghost use Rattle.freelist.specs.Deliveries.{delivery_of};
ghost use Rattle.freelist.specs.Ready.{SetUpReady, AskReady, KeepReady, ComingReady, DeliverReady, TakesBack, ReturnReady, CleanUpReady};

use crate::plans::Delivery;
use counter::{Block, FreeListSettings, Granted, KeptOrder, OpenOrder, Refusal, Refused};
use freelist_decide::{Buying, Plan};
use store::Coming;
use store_rules::{DeliveredShare, ReleasedShare, Share};

pub fn carry_set_up(
    s: FreeListSettings,
    plan: Result<(), Refusal>,
    head: &mut [u64],
    loans: &mut [u64],
    chunks: &mut [u64],
    index: &mut [u64],
    regions: &mut [u64],
) -> Result<(), Refused>
    requires { SetUpReady s (tables head.old loans.old chunks.old index.old regions.old) plan }
    ensures { begun (set_up_said result) (tables head.new loans.new chunks.new index.new regions.new) ≡ carry_set_up s (tables head.old loans.old chunks.old index.old regions.old) (verdict_of plan) }
{
    match plan {
        Err(refusal) => Err(refusal.into()),
        Ok(()) => {
            freelist_place::fresh(s, head, loans, chunks, index, regions);
            Ok(())
        }
    }
}

// Whatever the account, and the size and mask that this is the plan of.
pub fn carry_ask(
    s: FreeListSettings,
    plan: Result<Plan, Refusal>,
    head: &mut [u64],
    loans: &mut [u64],
    chunks: &[u64],
    index: &mut [u64],
    regions: &mut [u64],
) -> Result<Granted, Refused>
    requires { AskReady s (tables head.old loans.old chunks.now index.old regions.old) plan }
    ensures { (a : Account) (size mask : ℕ) → Planned s size mask (tables head.old loans.old chunks.now index.old regions.old) plan → out (ask_said result) (ask_left a size mask (ask_said result)) (tables head.new loans.new chunks.now index.new regions.new) ≡ carry_ask s a size mask (tables head.old loans.old chunks.now index.old regions.old) (plan_of plan) }
{
    match plan {
        Err(refusal) => store::refuse_ask(refusal),
        Ok(plan) => match plan {
            Plan::Take(k) => {
                let loan = k.loan;
                let book = loan.slab;
                let l = freelist_place::lend(
                    s,
                    k.region,
                    k.start,
                    loan.place,
                    book.places,
                    book.vacant,
                    loans,
                    chunks,
                    index,
                    regions,
                );
                store::answer_block(l)
            }
            Plan::Buy(b) => {
                freelist_place::raise_size(head, b.order);
                store::answer_order(s.store, b.order)
            }
        },
    }
}

// The memory is a chunk, whose region is the last and serves the kept ask: its block starts at the order's size less the size
// that is looked for, lowered to the mask.
fn keep_chunk(
    s: FreeListSettings,
    share: Share,
    k: KeptOrder,
    memory: u64,
    b: Buying,
    head: &mut [u64],
    loans: &mut [u64],
    chunks: &mut [u64],
    index: &mut [u64],
    regions: &mut [u64],
) -> DeliveredShare
    requires { KeepReady s k memory (tables head.old loans.old chunks.old index.old regions.old) b }
    ensures { (order : OpenOrder) → out (deliver_said result.answer) (holding s.store result.share result.order) (tables head.new loans.new chunks.new index.new regions.new) ≡ carry_fate s (holding s.store share order) k (tables head.old loans.old chunks.old index.old regions.old) (Fates.kept memory) }
{
    let order = k.order;
    let loan = b.loan;
    let book = loan.slab;
    let i = freelist_regions::region_count(regions);
    let start = rounding::lower_to_unit(order.size - b.size, b.mask);
    let charged = store_accounts::charged(share, order.size);
    freelist_place::add_chunk(s, memory, order.size, head, chunks, index, regions);
    let l = freelist_place::lend(
        s,
        i,
        start,
        loan.place,
        book.places,
        book.vacant,
        loans,
        chunks,
        index,
        regions,
    );
    store::deliver_block(charged, l)
}

// An order that is lost leaves the tables as they were.
fn carry_coming(
    s: FreeListSettings,
    share: Share,
    order: OpenOrder,
    coming: Coming,
    b: Buying,
    head: &mut [u64],
    loans: &mut [u64],
    chunks: &mut [u64],
    index: &mut [u64],
    regions: &mut [u64],
) -> DeliveredShare
    requires { ComingReady s (tables head.old loans.old chunks.old index.old regions.old) b coming }
    ensures { out (deliver_said result.answer) (holding s.store result.share result.order) (tables head.new loans.new chunks.new index.new regions.new) ≡ carry_deliver s (holding s.store share order) (tables head.old loans.old chunks.old index.old regions.old) (coming_of (Ok coming)) }
{
    match coming {
        Coming::Keep(c) => {
            let k = c.kept;
            keep_chunk(
                s, share, k, c.memory, b, head, loans, chunks, index, regions,
            )
        }
        Coming::Lose(c) => {
            let k = c.kept;
            let l = c.loss;
            store::lose_order(share, k, l)
        }
    }
}

pub fn carry_deliver(
    s: FreeListSettings,
    share: Share,
    order: OpenOrder,
    plan: Result<Delivery, Refusal>,
    head: &mut [u64],
    loans: &mut [u64],
    chunks: &mut [u64],
    index: &mut [u64],
    regions: &mut [u64],
) -> DeliveredShare
    requires { DeliverReady s (tables head.old loans.old chunks.old index.old regions.old) plan }
    ensures { out (deliver_said result.answer) (holding s.store result.share result.order) (tables head.new loans.new chunks.new index.new regions.new) ≡ carry_deliver s (holding s.store share order) (tables head.old loans.old chunks.old index.old regions.old) (delivery_of plan) }
{
    match plan {
        Err(r) => store::refuse_delivery(share, order, r),
        Ok(d) => {
            carry_coming(
                s, share, order, d.coming, d.bought, head, loans, chunks, index, regions,
            )
        }
    }
}

// The loan that the word at `at` of the index leads to goes back, and then wholly free chunks go; all that went is told by two
// numbers, so that the share is not handed on through memory.
fn take_in(
    s: FreeListSettings,
    share: Share,
    b: Block,
    at: usize,
    loans: &mut [u64],
    chunks: &mut [u64],
    index: &mut [u64],
    regions: &mut [u64],
    list: &mut [u64],
) -> ReleasedShare
    requires { TakesBack s share.objects b at (tables [] loans.old chunks.old index.old regions.old) list.old }
    ensures { listed (release_said result.answer) (holder s.store result.share) (tables [] loans.new chunks.new index.new regions.new) list.new ≡ release_of s (holder s.store share) true (given_tables s b at (tables [] loans.old chunks.old index.old regions.old)) list.old }
{
    freelist_place::take_back(s, b, at, loans, chunks, index, regions);
    let f = freelist_release::release(s, true, chunks, regions, list);
    store::settle(share, f.count, f.bytes)
}

pub fn carry_return(
    s: FreeListSettings,
    share: Share,
    b: Block,
    plan: Result<usize, Refusal>,
    head: &[u64],
    loans: &mut [u64],
    chunks: &mut [u64],
    index: &mut [u64],
    regions: &mut [u64],
    list: &mut [u64],
) -> ReleasedShare
    requires { ReturnReady s share.objects b (tables head.now loans.old chunks.old index.old regions.old) list.old plan }
    ensures { listed (release_said result.answer) (holder s.store result.share) (tables head.now loans.new chunks.new index.new regions.new) list.new ≡ carry_return s (holder s.store share) b (tables head.now loans.old chunks.old index.old regions.old) list.old (back_of plan) }
{
    match plan {
        Err(refusal) => store::refuse_return(share, refusal),
        Ok(at) => take_in(s, share, b, at, loans, chunks, index, regions, list),
    }
}

pub fn carry_clean_up(
    s: FreeListSettings,
    share: Share,
    plan: Result<(), Refusal>,
    head: &[u64],
    loans: &[u64],
    chunks: &mut [u64],
    index: &[u64],
    regions: &mut [u64],
    list: &mut [u64],
) -> ReleasedShare
    requires { CleanUpReady s share.objects (tables head.now loans.now chunks.old index.now regions.old) list.old plan }
    ensures { listed (release_said result.answer) (holder s.store result.share) (tables head.now loans.now chunks.new index.now regions.new) list.new ≡ carry_clean_up s (holder s.store share) (tables head.now loans.now chunks.old index.now regions.old) list.old (verdict_of plan) }
{
    match plan {
        Err(refusal) => store::refuse_return(share, refusal),
        Ok(()) => {
            let f = freelist_release::release(s, false, chunks, regions, list);
            store::settle(share, f.count, f.bytes)
        }
    }
}
