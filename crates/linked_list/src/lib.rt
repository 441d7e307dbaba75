// A free list's calls for programs in other languages: numbers and slices of words alone. specs/Calls says what each leaves.
// The heaps are walked before the settings are read, so that those are not kept over the walk.
#![tactic(auto)]

ghost use Rattle.std.specs.Prelude.{◌≡◌};
ghost use Rattle.freelist_rules.specs.Tables.{tables};
ghost use Rattle.wire_rules.specs.Wire.{said_out};
ghost use Rattle.linked_list.specs.Calls.{listing, linked_set_up, linked_ask, linked_deliver, linked_return, linked_clean_up};

use counter::Block;
use wire::LIST_WORDS;

#[unsafe(no_mangle)]
pub extern "C" fn tibrezkam_list_set_up(
    settings: &[u64],
    head: &mut [u64],
    loans: &mut [u64],
    chunks: &mut [u64],
    index: &mut [u64],
    regions: &mut [u64],
    answer: &mut [u64],
)
    ensures regions_after { tables head.new loans.new chunks.new index.new regions.new ≡ (linked_set_up settings.now (tables head.old loans.old chunks.old index.old regions.old)).tables }
    ensures answer_after { answer.new ≡ said_out (linked_set_up settings.now (tables head.old loans.old chunks.old index.old regions.old)).said answer.old }
{
    if wire::is_settings(settings, LIST_WORDS) {
        let s = wire::read_free_list(settings);
        let r = freelist::set_up(s, head, loans, chunks, index, regions);
        wire::tell_set_up(answer, r);
    } else {
        wire::tell_bad(answer);
    }
}

#[unsafe(no_mangle)]
pub extern "C" fn tibrezkam_list_ask(
    settings: &[u64],
    account: &mut [u64],
    size: u64,
    mask: u64,
    head: &mut [u64],
    loans: &mut [u64],
    chunks: &[u64],
    index: &mut [u64],
    regions: &mut [u64],
    answer: &mut [u64],
)
    ensures account_after { account.new ≡ (linked_ask settings.now account.old size mask (tables head.old loans.old chunks.now index.old regions.old)).account }
    ensures regions_after { tables head.new loans.new chunks.now index.new regions.new ≡ (linked_ask settings.now account.old size mask (tables head.old loans.old chunks.now index.old regions.old)).tables }
    ensures answer_after { answer.new ≡ said_out (linked_ask settings.now account.old size mask (tables head.old loans.old chunks.now index.old regions.old)).said answer.old }
{
    if wire::is_settings(settings, LIST_WORDS) & wire_account::is_account(account) {
        let table = wire_account::heaps_in_table(account);
        let s = wire::read_free_list(settings);
        let own = s.store;
        let share = wire_account::read_share(account, own, table);
        let said = freelist::calls::ask(s, share, size, mask, head, loans, chunks, index, regions);
        wire_account::put_asked(account, size, mask, said);
        wire::tell_asked(answer, said);
    } else {
        wire::tell_bad(answer);
    }
}

#[unsafe(no_mangle)]
pub extern "C" fn tibrezkam_list_deliver(
    settings: &[u64],
    account: &mut [u64],
    what: u64,
    memory: u64,
    mapping: u64,
    head: &mut [u64],
    loans: &mut [u64],
    chunks: &mut [u64],
    index: &mut [u64],
    regions: &mut [u64],
    answer: &mut [u64],
)
    ensures account_after { account.new ≡ (linked_deliver settings.now account.old what memory mapping (tables head.old loans.old chunks.old index.old regions.old)).account }
    ensures regions_after { tables head.new loans.new chunks.new index.new regions.new ≡ (linked_deliver settings.now account.old what memory mapping (tables head.old loans.old chunks.old index.old regions.old)).tables }
    ensures answer_after { answer.new ≡ said_out (linked_deliver settings.now account.old what memory mapping (tables head.old loans.old chunks.old index.old regions.old)).said answer.old }
{
    if wire::is_settings(settings, LIST_WORDS)
        & wire_account::is_account(account)
        & wire::is_outcome(what, mapping)
    {
        let table = wire_account::heaps_in_table(account);
        let s = wire::read_free_list(settings);
        let own = s.store;
        let share = wire_account::read_share(account, own, table);
        let o = wire::read_outcome(what, memory, mapping);
        let order = wire_account::read_order(account);
        let r = freelist::calls::deliver(s, share, order, o, head, loans, chunks, index, regions);
        let after = r.share;
        let open = r.order;
        let said = r.answer;
        wire_account::put_share(account, own, after);
        wire_account::put_order(account, open);
        wire::tell_delivered(answer, said);
    } else {
        wire::tell_bad(answer);
    }
}

#[unsafe(no_mangle)]
pub extern "C" fn tibrezkam_list_return(
    settings: &[u64],
    account: &mut [u64],
    serial: u64,
    chunk: u64,
    offset: u64,
    size: u64,
    head: &mut [u64],
    loans: &mut [u64],
    chunks: &mut [u64],
    index: &mut [u64],
    regions: &mut [u64],
    list: &mut [u64],
    answer: &mut [u64],
)
    ensures account_after { account.new ≡ (linked_return settings.now account.old (record { serial = serial; chunk = chunk; offset = offset; size = size }) (tables head.old loans.old chunks.old index.old regions.old) list.old).account }
    ensures list_after { listing (tables head.new loans.new chunks.new index.new regions.new) list.new ≡ (linked_return settings.now account.old (record { serial = serial; chunk = chunk; offset = offset; size = size }) (tables head.old loans.old chunks.old index.old regions.old) list.old).tables }
    ensures answer_after { answer.new ≡ said_out (linked_return settings.now account.old (record { serial = serial; chunk = chunk; offset = offset; size = size }) (tables head.old loans.old chunks.old index.old regions.old) list.old).said answer.old }
{
    if wire::is_settings(settings, LIST_WORDS) & wire_account::is_account(account) {
        let table = wire_account::heaps_in_table(account);
        let s = wire::read_free_list(settings);
        let own = s.store;
        let share = wire_account::read_share(account, own, table);
        let b = Block {
            serial: serial,
            chunk: chunk,
            offset: offset,
            size: size,
        };
        let r = freelist::calls::return_block(
            s, share, b, head, loans, chunks, index, regions, list,
        );
        let after = r.share;
        wire_account::put_share(account, own, after);
        let said = r.answer;
        wire::tell_released(answer, said);
    } else {
        wire::tell_bad(answer);
    }
}

#[unsafe(no_mangle)]
pub extern "C" fn tibrezkam_list_clean_up(
    settings: &[u64],
    account: &mut [u64],
    head: &mut [u64],
    loans: &[u64],
    chunks: &mut [u64],
    index: &[u64],
    regions: &mut [u64],
    list: &mut [u64],
    answer: &mut [u64],
)
    ensures account_after { account.new ≡ (linked_clean_up settings.now account.old (tables head.old loans.now chunks.old index.now regions.old) list.old).account }
    ensures list_after { listing (tables head.new loans.now chunks.new index.now regions.new) list.new ≡ (linked_clean_up settings.now account.old (tables head.old loans.now chunks.old index.now regions.old) list.old).tables }
    ensures answer_after { answer.new ≡ said_out (linked_clean_up settings.now account.old (tables head.old loans.now chunks.old index.now regions.old) list.old).said answer.old }
{
    if wire::is_settings(settings, LIST_WORDS) & wire_account::is_account(account) {
        let table = wire_account::heaps_in_table(account);
        let s = wire::read_free_list(settings);
        let own = s.store;
        let share = wire_account::read_share(account, own, table);
        let r = freelist::calls::clean_up(s, share, head, loans, chunks, index, regions, list);
        let after = r.share;
        wire_account::put_share(account, own, after);
        let said = r.answer;
        wire::tell_released(answer, said);
    } else {
        wire::tell_bad(answer);
    }
}
