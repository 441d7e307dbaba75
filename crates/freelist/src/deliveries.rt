// A delivery: the chunk is added and lent from, or the order is lost.
ghost use Rattle.std.specs.Prelude.{◌≡◌};
ghost use Rattle.counter.specs.Paper.{deliver_said};
ghost use Rattle.store_rules.specs.Outcomes.{out};
ghost use Rattle.freelist_rules.specs.Tables.{tables};
ghost use Rattle.freelist_outcomes.specs.Deliver.{deliver_of};

use counter::{Account, Delivered, FreeListSettings, Outcome};

pub fn deliver(
    s: FreeListSettings,
    a: Account,
    o: Outcome,
    head: &mut [u64],
    loans: &mut [u64],
    chunks: &mut [u64],
    index: &mut [u64],
    regions: &mut [u64],
) -> Delivered
    ensures { out (deliver_said result.answer) result.account (tables head.new loans.new chunks.new index.new regions.new) ≡ deliver_of s a o (tables head.old loans.old chunks.old index.old regions.old) }
{
    let own = s.store;
    let share = store_accounts::share_of(own, a);
    let order = a.order;
    let r = crate::calls::deliver(s, share, order, o, head, loans, chunks, index, regions);
    store::delivered(own, a, r)
}
