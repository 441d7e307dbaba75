// A buddy's calls as an archive for C: each export calls linked_buddy's function and says its clauses again.
#![tactic(auto)]

ghost use Rattle.std.specs.Prelude.{◌≡◌};
ghost use Rattle.buddy_rules.specs.Tables.{tables};
ghost use Rattle.wire_rules.specs.Wire.{said_out};
ghost use Rattle.linked_buddy.specs.Calls.{listing, linked_set_up, linked_ask, linked_deliver, linked_return};

#[unsafe(no_mangle)]
pub extern "C" fn tibrezkam_buddy_set_up(
    settings: &[u64],
    head: &mut [u64],
    loans: &mut [u64],
    chunks: &mut [u64],
    index: &mut [u64],
    tree: &mut [u64],
    answer: &mut [u64],
)
    ensures tree_after { tables head.new loans.new chunks.new index.new tree.new ≡ (linked_set_up settings.now (tables head.old loans.old chunks.old index.old tree.old)).tables }
    ensures answer_after { answer.new ≡ said_out (linked_set_up settings.now (tables head.old loans.old chunks.old index.old tree.old)).said answer.old }
{
    linked_buddy::tibrezkam_buddy_set_up(settings, head, loans, chunks, index, tree, answer);
}

#[unsafe(no_mangle)]
pub extern "C" fn tibrezkam_buddy_ask(
    settings: &[u64],
    account: &mut [u64],
    size: u64,
    mask: u64,
    head: &mut [u64],
    loans: &mut [u64],
    chunks: &[u64],
    index: &mut [u64],
    tree: &mut [u64],
    answer: &mut [u64],
)
    ensures account_after { account.new ≡ (linked_ask settings.now account.old size mask (tables head.old loans.old chunks.now index.old tree.old)).account }
    ensures tree_after { tables head.new loans.new chunks.now index.new tree.new ≡ (linked_ask settings.now account.old size mask (tables head.old loans.old chunks.now index.old tree.old)).tables }
    ensures answer_after { answer.new ≡ said_out (linked_ask settings.now account.old size mask (tables head.old loans.old chunks.now index.old tree.old)).said answer.old }
{
    linked_buddy::tibrezkam_buddy_ask(
        settings, account, size, mask, head, loans, chunks, index, tree, answer,
    );
}

#[unsafe(no_mangle)]
pub extern "C" fn tibrezkam_buddy_deliver(
    settings: &[u64],
    account: &mut [u64],
    what: u64,
    memory: u64,
    mapping: u64,
    head: &mut [u64],
    loans: &mut [u64],
    chunks: &mut [u64],
    index: &mut [u64],
    tree: &mut [u64],
    answer: &mut [u64],
)
    ensures account_after { account.new ≡ (linked_deliver settings.now account.old what memory mapping (tables head.old loans.old chunks.old index.old tree.old)).account }
    ensures tree_after { tables head.new loans.new chunks.new index.new tree.new ≡ (linked_deliver settings.now account.old what memory mapping (tables head.old loans.old chunks.old index.old tree.old)).tables }
    ensures answer_after { answer.new ≡ said_out (linked_deliver settings.now account.old what memory mapping (tables head.old loans.old chunks.old index.old tree.old)).said answer.old }
{
    linked_buddy::tibrezkam_buddy_deliver(
        settings, account, what, memory, mapping, head, loans, chunks, index, tree, answer,
    );
}

#[unsafe(no_mangle)]
pub extern "C" fn tibrezkam_buddy_return(
    settings: &[u64],
    account: &mut [u64],
    serial: u64,
    chunk: u64,
    offset: u64,
    size: u64,
    head: &[u64],
    loans: &mut [u64],
    chunks: &mut [u64],
    index: &mut [u64],
    tree: &mut [u64],
    list: &mut [u64],
    answer: &mut [u64],
)
    ensures account_after { account.new ≡ (linked_return settings.now account.old (record { serial = serial; chunk = chunk; offset = offset; size = size }) (tables head.now loans.old chunks.old index.old tree.old) list.old).account }
    ensures list_after { listing (tables head.now loans.new chunks.new index.new tree.new) list.new ≡ (linked_return settings.now account.old (record { serial = serial; chunk = chunk; offset = offset; size = size }) (tables head.now loans.old chunks.old index.old tree.old) list.old).tables }
    ensures answer_after { answer.new ≡ said_out (linked_return settings.now account.old (record { serial = serial; chunk = chunk; offset = offset; size = size }) (tables head.now loans.old chunks.old index.old tree.old) list.old).said answer.old }
{
    linked_buddy::tibrezkam_buddy_return(
        settings, account, serial, chunk, offset, size, head, loans, chunks, index, tree, list,
        answer,
    );
}
