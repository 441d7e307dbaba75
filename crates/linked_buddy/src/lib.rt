// A buddy's calls for programs in other languages: numbers and slices of words alone. specs/Calls says what each leaves.
// The heaps are walked before the settings are read, so that those are not kept over the walk.
#![tactic(auto)]

ghost use Rattle.std.specs.Prelude.{◌≡◌};
ghost use Rattle.buddy_rules.specs.Tables.{tables};
ghost use Rattle.wire_rules.specs.Wire.{said_out};
ghost use Rattle.linked_buddy.specs.Calls.{listing, linked_set_up, linked_ask, linked_deliver, linked_return};

use counter::Block;
use wire::BUDDY_WORDS;

#[unsafe(no_mangle)]
pub extern "C" fn tibrezkam_buddy_set_up(
    settings: &[u64],
    head: &mut [u64],
    loans: &mut [u64],
    chunks: &mut [u64],
    index: &mut [u64],
    tree: &mut [u64],
    answer: &mut [u64],
)
    ensures tree_after { tables head.new loans.new chunks.new index.new tree.new ≡ (linked_set_up settings.now (tables head.old loans.old chunks.old index.old tree.old)).tables }
    ensures answer_after { answer.new ≡ said_out (linked_set_up settings.now (tables head.old loans.old chunks.old index.old tree.old)).said answer.old }
{
    if wire::is_settings(settings, BUDDY_WORDS) {
        let s = wire::read_buddy(settings);
        let r = buddy::set_up(s, head, loans, chunks, index, tree);
        wire::tell_set_up(answer, r);
    } else {
        wire::tell_bad(answer);
    }
}

#[unsafe(no_mangle)]
pub extern "C" fn tibrezkam_buddy_ask(
    settings: &[u64],
    account: &mut [u64],
    size: u64,
    mask: u64,
    head: &mut [u64],
    loans: &mut [u64],
    chunks: &[u64],
    index: &mut [u64],
    tree: &mut [u64],
    answer: &mut [u64],
)
    ensures account_after { account.new ≡ (linked_ask settings.now account.old size mask (tables head.old loans.old chunks.now index.old tree.old)).account }
    ensures tree_after { tables head.new loans.new chunks.now index.new tree.new ≡ (linked_ask settings.now account.old size mask (tables head.old loans.old chunks.now index.old tree.old)).tables }
    ensures answer_after { answer.new ≡ said_out (linked_ask settings.now account.old size mask (tables head.old loans.old chunks.now index.old tree.old)).said answer.old }
{
    if wire::is_settings(settings, BUDDY_WORDS) & wire_account::is_account(account) {
        let table = wire_account::heaps_in_table(account);
        let s = wire::read_buddy(settings);
        let own = s.store;
        let share = wire_account::read_share(account, own, table);
        let said = buddy::calls::ask(s, share, size, mask, head, loans, chunks, index, tree);
        wire_account::put_asked(account, size, mask, said);
        wire::tell_asked(answer, said);
    } else {
        wire::tell_bad(answer);
    }
}

#[unsafe(no_mangle)]
pub extern "C" fn tibrezkam_buddy_deliver(
    settings: &[u64],
    account: &mut [u64],
    what: u64,
    memory: u64,
    mapping: u64,
    head: &mut [u64],
    loans: &mut [u64],
    chunks: &mut [u64],
    index: &mut [u64],
    tree: &mut [u64],
    answer: &mut [u64],
)
    ensures account_after { account.new ≡ (linked_deliver settings.now account.old what memory mapping (tables head.old loans.old chunks.old index.old tree.old)).account }
    ensures tree_after { tables head.new loans.new chunks.new index.new tree.new ≡ (linked_deliver settings.now account.old what memory mapping (tables head.old loans.old chunks.old index.old tree.old)).tables }
    ensures answer_after { answer.new ≡ said_out (linked_deliver settings.now account.old what memory mapping (tables head.old loans.old chunks.old index.old tree.old)).said answer.old }
{
    if wire::is_settings(settings, BUDDY_WORDS)
        & wire_account::is_account(account)
        & wire::is_outcome(what, mapping)
    {
        let table = wire_account::heaps_in_table(account);
        let s = wire::read_buddy(settings);
        let own = s.store;
        let share = wire_account::read_share(account, own, table);
        let o = wire::read_outcome(what, memory, mapping);
        let order = wire_account::read_order(account);
        let r = buddy::calls::deliver(s, share, order, o, head, loans, chunks, index, tree);
        let after = r.share;
        let open = r.order;
        let said = r.answer;
        wire_account::put_share(account, own, after);
        wire_account::put_order(account, open);
        wire::tell_delivered(answer, said);
    } else {
        wire::tell_bad(answer);
    }
}

#[unsafe(no_mangle)]
pub extern "C" fn tibrezkam_buddy_return(
    settings: &[u64],
    account: &mut [u64],
    serial: u64,
    chunk: u64,
    offset: u64,
    size: u64,
    head: &[u64],
    loans: &mut [u64],
    chunks: &mut [u64],
    index: &mut [u64],
    tree: &mut [u64],
    list: &mut [u64],
    answer: &mut [u64],
)
    ensures account_after { account.new ≡ (linked_return settings.now account.old (record { serial = serial; chunk = chunk; offset = offset; size = size }) (tables head.now loans.old chunks.old index.old tree.old) list.old).account }
    ensures list_after { listing (tables head.now loans.new chunks.new index.new tree.new) list.new ≡ (linked_return settings.now account.old (record { serial = serial; chunk = chunk; offset = offset; size = size }) (tables head.now loans.old chunks.old index.old tree.old) list.old).tables }
    ensures answer_after { answer.new ≡ said_out (linked_return settings.now account.old (record { serial = serial; chunk = chunk; offset = offset; size = size }) (tables head.now loans.old chunks.old index.old tree.old) list.old).said answer.old }
{
    if wire::is_settings(settings, BUDDY_WORDS) & wire_account::is_account(account) {
        let table = wire_account::heaps_in_table(account);
        let s = wire::read_buddy(settings);
        let own = s.store;
        let share = wire_account::read_share(account, own, table);
        let b = Block {
            serial: serial,
            chunk: chunk,
            offset: offset,
            size: size,
        };
        let r = buddy::calls::return_block(s, share, b, head, loans, chunks, index, tree, list);
        let after = r.share;
        let said = r.answer;
        wire_account::put_share(account, own, after);
        wire::tell_released(answer, said);
    } else {
        wire::tell_bad(answer);
    }
}
