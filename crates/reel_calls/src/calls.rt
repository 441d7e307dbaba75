// The calls of a store of either engine. Both have five tables: head, loans, chunks and index, and one of the engine's own,
// a free list's regions or a buddy store's tree.
use counter::{Account, BuddySettings, FreeListSettings, Refused};
use reel::{Settings, Taken};
use tape::Record;

pub fn set_up(
    settings: Settings,
    head: &mut [u64],
    loans: &mut [u64],
    chunks: &mut [u64],
    index: &mut [u64],
    own: &mut [u64],
) -> Result<(), Refused> {
    match settings {
        Settings::FreeList(s) => freelist::set_up(s, head, loans, chunks, index, own),
        Settings::Buddy(s) => buddy::set_up(s, head, loans, chunks, index, own),
    }
}

fn untaken(a: Account) -> Taken {
    Taken {
        account: a,
        answer: None,
    }
}

fn take_free_list(
    s: FreeListSettings,
    a: Account,
    record: Record,
    head: &mut [u64],
    loans: &mut [u64],
    chunks: &mut [u64],
    index: &mut [u64],
    regions: &mut [u64],
    list: &mut [u64],
) -> Taken {
    match record {
        Record::Ask(q) => Taken::from(freelist::ask(
            s, a, q.size, q.mask, head, loans, chunks, index, regions,
        )),
        Record::Deliver(o) => Taken::from(freelist::deliver(
            s, a, o, head, loans, chunks, index, regions,
        )),
        Record::Return(b) => Taken::from(freelist::return_block(
            s, a, b, head, loans, chunks, index, regions, list,
        )),
        Record::CleanUp => Taken::from(freelist::clean_up(
            s, a, head, loans, chunks, index, regions, list,
        )),
    }
}

// A buddy store has no clean-up, so one is no call of it.
fn take_buddy(
    s: BuddySettings,
    a: Account,
    record: Record,
    head: &mut [u64],
    loans: &mut [u64],
    chunks: &mut [u64],
    index: &mut [u64],
    tree: &mut [u64],
    list: &mut [u64],
) -> Taken {
    match record {
        Record::Ask(q) => Taken::from(buddy::ask(
            s, a, q.size, q.mask, head, loans, chunks, index, tree,
        )),
        Record::Deliver(o) => Taken::from(buddy::deliver(
            s, a, o, head, loans, chunks, index, tree,
        )),
        Record::Return(b) => Taken::from(buddy::return_block(
            s, a, b, head, loans, chunks, index, tree, list,
        )),
        Record::CleanUp => untaken(a),
    }
}

// A torn record, which reads as none, is no call either.
pub fn take(
    settings: Settings,
    a: Account,
    record: Option<Record>,
    head: &mut [u64],
    loans: &mut [u64],
    chunks: &mut [u64],
    index: &mut [u64],
    own: &mut [u64],
    list: &mut [u64],
) -> Taken {
    let Some(record) = record else {
        return untaken(a);
    };
    match settings {
        Settings::FreeList(s) => take_free_list(
            s, a, record, head, loans, chunks, index, own, list,
        ),
        Settings::Buddy(s) => take_buddy(s, a, record, head, loans, chunks, index, own, list),
    }
}
