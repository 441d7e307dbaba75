// An ask: a block, an order, or a refusal.
ghost use Rattle.std.specs.Prelude.{◌≡◌};
ghost use Rattle.counter.specs.Paper.{ask_said};
ghost use Rattle.store_rules.specs.Outcomes.{out};
ghost use Rattle.freelist_rules.specs.Tables.{tables};
ghost use Rattle.freelist_outcomes.specs.Ask.{ask_of};

use counter::{Account, Asked, FreeListSettings};

pub fn ask(
    s: FreeListSettings,
    a: Account,
    size: u64,
    mask: u64,
    head: &mut [u64],
    loans: &mut [u64],
    chunks: &[u64],
    index: &mut [u64],
    regions: &mut [u64],
) -> Asked
    ensures { out (ask_said result.answer) result.account (tables head.new loans.new chunks.now index.new regions.new) ≡ ask_of s a size mask (tables head.old loans.old chunks.now index.old regions.old) }
{
    let own = s.store;
    let share = store_accounts::share_of(own, a);
    let answer = crate::calls::ask(s, share, size, mask, head, loans, chunks, index, regions);
    store::asked(a, size, mask, answer)
}
