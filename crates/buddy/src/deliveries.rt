// A delivery: the chunk is added and lent from, or the order is lost. Either way the levels are as the order raised them.
ghost use Rattle.std.specs.Prelude.{◌≡◌};
ghost use Rattle.counter.specs.Paper.{deliver_said};
ghost use Rattle.store_rules.specs.Outcomes.{out};
ghost use Rattle.buddy_rules.specs.Tables.{tables};
ghost use Rattle.buddy_outcomes.specs.Deliver.{deliver_of};

use counter::{Account, BuddySettings, Delivered, Outcome};

pub fn deliver(
    s: BuddySettings,
    a: Account,
    o: Outcome,
    head: &mut [u64],
    loans: &mut [u64],
    chunks: &mut [u64],
    index: &mut [u64],
    tree: &mut [u64],
) -> Delivered
    ensures { out (deliver_said result.answer) result.account (tables head.new loans.new chunks.new index.new tree.new) ≡ deliver_of s a o (tables head.old loans.old chunks.old index.old tree.old) }
{
    let own = s.store;
    let share = store_accounts::share_of(own, a);
    let order = a.order;
    let r = crate::calls::deliver(s, share, order, o, head, loans, chunks, index, tree);
    store::delivered(own, a, r)
}
