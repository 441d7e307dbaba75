// A return: the gate and its test, and then it is carried out.
ghost use Rattle.std.specs.Prelude.{◌≡◌};
ghost use Rattle.counter.specs.Paper.{release_said};
ghost use Rattle.store_rules.specs.Outcomes.{listed};
ghost use Rattle.buddy_rules.specs.Tables.{tables};
ghost use Rattle.buddy_outcomes.specs.Return.{return_of};

use counter::{Account, Block, BuddySettings, Released};

// A block comes back. The memory number of its chunk, where that goes, then stands at the front of `list`.
pub fn return_block(
    s: BuddySettings,
    a: Account,
    b: Block,
    head: &[u64],
    loans: &mut [u64],
    chunks: &mut [u64],
    index: &mut [u64],
    tree: &mut [u64],
    list: &mut [u64],
) -> Released
    ensures { listed (release_said result.answer) result.account (tables head.now loans.new chunks.new index.new tree.new) list.new ≡ return_of s a b (tables head.now loans.old chunks.old index.old tree.old) list.old }
{
    let own = s.store;
    let share = store_accounts::share_of(own, a);
    let r = crate::calls::return_block(s, share, b, head, loans, chunks, index, tree, list);
    store::released(own, a, r)
}
