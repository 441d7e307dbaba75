// A return and a clean-up: what is taken back, and the wholly free chunks that go.
ghost use Rattle.std.specs.Prelude.{◌≡◌};
ghost use Rattle.counter.specs.Paper.{release_said};
ghost use Rattle.store_rules.specs.Outcomes.{listed};
ghost use Rattle.freelist_rules.specs.Tables.{tables};
ghost use Rattle.freelist_outcomes.specs.Return.{return_of, clean_up_of};

use counter::{Account, Block, FreeListSettings, Released};

// A block comes back. The memory numbers of the chunks that go then stand at the front of `list`.
pub fn return_block(
    s: FreeListSettings,
    a: Account,
    b: Block,
    head: &[u64],
    loans: &mut [u64],
    chunks: &mut [u64],
    index: &mut [u64],
    regions: &mut [u64],
    list: &mut [u64],
) -> Released
    ensures { listed (release_said result.answer) result.account (tables head.now loans.new chunks.new index.new regions.new) list.new ≡ return_of s a b (tables head.now loans.old chunks.old index.old regions.old) list.old }
{
    let own = s.store;
    let share = store_accounts::share_of(own, a);
    let r = crate::calls::return_block(s, share, b, head, loans, chunks, index, regions, list);
    store::released(own, a, r)
}

// Every wholly free chunk goes.
pub fn clean_up(
    s: FreeListSettings,
    a: Account,
    head: &[u64],
    loans: &[u64],
    chunks: &mut [u64],
    index: &[u64],
    regions: &mut [u64],
    list: &mut [u64],
) -> Released
    ensures { listed (release_said result.answer) result.account (tables head.now loans.now chunks.new index.now regions.new) list.new ≡ clean_up_of s a (tables head.now loans.now chunks.old index.now regions.old) list.old }
{
    let own = s.store;
    let share = store_accounts::share_of(own, a);
    let r = crate::calls::clean_up(s, share, head, loans, chunks, index, regions, list);
    store::released(own, a, r)
}
