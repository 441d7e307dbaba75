// Set-up: a store with nothing in it.
ghost use Rattle.std.specs.Prelude.{◌≡◌};
ghost use Rattle.counter.specs.Paper.{set_up_said};
ghost use Rattle.buddy_rules.specs.Tables.{tables};
ghost use Rattle.buddy_outcomes.specs.SetUp.{begun, set_up_of};

use counter::{BuddySettings, Refused};

pub fn set_up(
    s: BuddySettings,
    head: &mut [u64],
    loans: &mut [u64],
    chunks: &mut [u64],
    index: &mut [u64],
    tree: &mut [u64],
) -> Result<(), Refused>
    ensures { begun (set_up_said result) (tables head.new loans.new chunks.new index.new tree.new) ≡ set_up_of s (tables head.old loans.old chunks.old index.old tree.old) }
{
    let plan = crate::plans::plan_set_up(s, head, loans, chunks, index, tree);
    crate::carries::carry_set_up(s, plan, head, loans, chunks, index, tree)
}
