// Levels there and empty.
ghost use Rattle.std.specs.Prelude.{◌≡◌, [], ◌+◌, ◌≤◌};
ghost use Rattle.counter.specs.InTable.{BuddyIn};
ghost use Rattle.counter.specs.Limits.{levels_most};
ghost use Rattle.buddy_rules.specs.Tables.{tables};
ghost use Rattle.buddy_outcomes.specs.Ask.{fresh_levels, grown_tables};
ghost use Rattle.buddy_grow.specs.Grows.{Grows};

use buddy_rules::LEVELS_AT;
use counter::BuddySettings;

// Those from a level on, n of them.
fn fresh_levels(s: BuddySettings, level: usize, n: usize, tree: &mut [u64])
    requires { BuddyIn s × (level + n ≤ levels_most) }
    ensures { tree.new ≡ fresh_levels s level n tree.old }
{
    for l in level..level + n {
        buddy_levels::fresh_level(tree, buddy_levels::level_from(s.pairs, l));
    }
}

// The store has n levels from now on, which are no fewer than it had.
pub fn grow(s: BuddySettings, n: u64, head: &mut [u64], tree: &mut [u64])
    requires { Grows s n head.old }
    ensures { tables head.new [] [] [] tree.new ≡ grown_tables s n (tables head.old [] [] [] tree.old) }
{
    let levels = words::word(head, LEVELS_AT);
    fresh_levels(s, levels as usize, (n - levels) as usize, tree);
    words::put(head, LEVELS_AT, n);
}
