// What the walk down a chunk reads.
ghost use Rattle.std.specs.Prelude.{◌≤◌};
ghost use Rattle.counter.specs.InTable.{BuddyIn};
ghost use Rattle.counter.specs.Limits.{levels_most};
ghost use Rattle.buddy_rules.specs.Sole.{buddy_sole};
ghost use Rattle.buddy_walk.specs.Walks.{Within};

use counter::BuddySettings;

// Settings in 01's table, and the tables of so many levels: they have the words of every place that was ever used, so no word that the
// walk is led to is asked for whether it is there. The same all the way down.
#[derive(Clone, Copy)]
pub struct WalkView<'a> {
    pub settings: BuddySettings,
    pub levels: u64,
    pub loans: &'a [u64],
    pub index: &'a [u64],
    pub tree: &'a [u64],
    pub ghost in_table: { BuddyIn settings } by { buddy_sole },
    pub ghost few_levels: { levels ≤ levels_most },
    pub ghost within: { Within levels settings.pairs settings.store.loans loans.now index.now tree.now },
}
