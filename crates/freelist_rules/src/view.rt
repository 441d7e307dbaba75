// The tables of a store, lent to be read.
ghost use Rattle.counter.specs.InTable.{FreeListIn};
ghost use Rattle.freelist_rules.specs.Sole.{free_list_sole};

use counter::FreeListSettings;

// What a call reads of a store: settings in 01's table, and its five tables. How long those are each function says that asks it.
#[derive(Drop)]
pub struct FreeListView<'a> {
    pub settings: FreeListSettings,
    pub head: &'a [u64],
    pub loans: &'a [u64],
    pub chunks: &'a [u64],
    pub index: &'a [u64],
    pub regions: &'a [u64],
    pub ghost in_table: { FreeListIn settings } by { free_list_sole settings },
}
