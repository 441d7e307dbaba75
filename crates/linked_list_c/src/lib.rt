// A free list's calls as an archive for C: each export calls linked_list's function and says its clauses again.
#![tactic(auto)]

ghost use Rattle.std.specs.Prelude.{◌≡◌};
ghost use Rattle.freelist_rules.specs.Tables.{tables};
ghost use Rattle.wire_rules.specs.Wire.{said_out};
ghost use Rattle.linked_list.specs.Calls.{listing, linked_set_up, linked_ask, linked_deliver, linked_return, linked_clean_up};

#[unsafe(no_mangle)]
pub extern "C" fn tibrezkam_list_set_up(
    settings: &[u64],
    head: &mut [u64],
    loans: &mut [u64],
    chunks: &mut [u64],
    index: &mut [u64],
    regions: &mut [u64],
    answer: &mut [u64],
)
    ensures regions_after { tables head.new loans.new chunks.new index.new regions.new ≡ (linked_set_up settings.now (tables head.old loans.old chunks.old index.old regions.old)).tables }
    ensures answer_after { answer.new ≡ said_out (linked_set_up settings.now (tables head.old loans.old chunks.old index.old regions.old)).said answer.old }
{
    linked_list::tibrezkam_list_set_up(settings, head, loans, chunks, index, regions, answer);
}

#[unsafe(no_mangle)]
pub extern "C" fn tibrezkam_list_ask(
    settings: &[u64],
    account: &mut [u64],
    size: u64,
    mask: u64,
    head: &mut [u64],
    loans: &mut [u64],
    chunks: &[u64],
    index: &mut [u64],
    regions: &mut [u64],
    answer: &mut [u64],
)
    ensures account_after { account.new ≡ (linked_ask settings.now account.old size mask (tables head.old loans.old chunks.now index.old regions.old)).account }
    ensures regions_after { tables head.new loans.new chunks.now index.new regions.new ≡ (linked_ask settings.now account.old size mask (tables head.old loans.old chunks.now index.old regions.old)).tables }
    ensures answer_after { answer.new ≡ said_out (linked_ask settings.now account.old size mask (tables head.old loans.old chunks.now index.old regions.old)).said answer.old }
{
    linked_list::tibrezkam_list_ask(
        settings, account, size, mask, head, loans, chunks, index, regions, answer,
    );
}

#[unsafe(no_mangle)]
pub extern "C" fn tibrezkam_list_deliver(
    settings: &[u64],
    account: &mut [u64],
    what: u64,
    memory: u64,
    mapping: u64,
    head: &mut [u64],
    loans: &mut [u64],
    chunks: &mut [u64],
    index: &mut [u64],
    regions: &mut [u64],
    answer: &mut [u64],
)
    ensures account_after { account.new ≡ (linked_deliver settings.now account.old what memory mapping (tables head.old loans.old chunks.old index.old regions.old)).account }
    ensures regions_after { tables head.new loans.new chunks.new index.new regions.new ≡ (linked_deliver settings.now account.old what memory mapping (tables head.old loans.old chunks.old index.old regions.old)).tables }
    ensures answer_after { answer.new ≡ said_out (linked_deliver settings.now account.old what memory mapping (tables head.old loans.old chunks.old index.old regions.old)).said answer.old }
{
    linked_list::tibrezkam_list_deliver(
        settings, account, what, memory, mapping, head, loans, chunks, index, regions, answer,
    );
}

#[unsafe(no_mangle)]
pub extern "C" fn tibrezkam_list_return(
    settings: &[u64],
    account: &mut [u64],
    serial: u64,
    chunk: u64,
    offset: u64,
    size: u64,
    head: &mut [u64],
    loans: &mut [u64],
    chunks: &mut [u64],
    index: &mut [u64],
    regions: &mut [u64],
    list: &mut [u64],
    answer: &mut [u64],
)
    ensures account_after { account.new ≡ (linked_return settings.now account.old (record { serial = serial; chunk = chunk; offset = offset; size = size }) (tables head.old loans.old chunks.old index.old regions.old) list.old).account }
    ensures list_after { listing (tables head.new loans.new chunks.new index.new regions.new) list.new ≡ (linked_return settings.now account.old (record { serial = serial; chunk = chunk; offset = offset; size = size }) (tables head.old loans.old chunks.old index.old regions.old) list.old).tables }
    ensures answer_after { answer.new ≡ said_out (linked_return settings.now account.old (record { serial = serial; chunk = chunk; offset = offset; size = size }) (tables head.old loans.old chunks.old index.old regions.old) list.old).said answer.old }
{
    linked_list::tibrezkam_list_return(
        settings, account, serial, chunk, offset, size, head, loans, chunks, index, regions, list,
        answer,
    );
}

#[unsafe(no_mangle)]
pub extern "C" fn tibrezkam_list_clean_up(
    settings: &[u64],
    account: &mut [u64],
    head: &mut [u64],
    loans: &[u64],
    chunks: &mut [u64],
    index: &[u64],
    regions: &mut [u64],
    list: &mut [u64],
    answer: &mut [u64],
)
    ensures account_after { account.new ≡ (linked_clean_up settings.now account.old (tables head.old loans.now chunks.old index.now regions.old) list.old).account }
    ensures list_after { listing (tables head.new loans.now chunks.new index.now regions.new) list.new ≡ (linked_clean_up settings.now account.old (tables head.old loans.now chunks.old index.now regions.old) list.old).tables }
    ensures answer_after { answer.new ≡ said_out (linked_clean_up settings.now account.old (tables head.old loans.now chunks.old index.now regions.old) list.old).said answer.old }
{
    linked_list::tibrezkam_list_clean_up(
        settings, account, head, loans, chunks, index, regions, list, answer,
    );
}
