// The tables of a buddy store as a call reads them.
ghost use Rattle.counter.specs.InTable.{BuddyIn};
ghost use Rattle.buddy_rules.specs.Sole.{buddy_sole};

use counter::BuddySettings;

// What a call reads of a store: settings in 01's table, and its five tables. How long those are each function says that asks it.
#[derive(Clone, Copy)]
pub struct BuddyView<'a> {
    pub settings: BuddySettings,
    pub head: &'a [u64],
    pub loans: &'a [u64],
    pub chunks: &'a [u64],
    pub index: &'a [u64],
    pub tree: &'a [u64],
    pub ghost in_table: { BuddyIn settings } by { buddy_sole },
}
