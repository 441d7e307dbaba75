// One sound store: each of its words damaged in turn, and on what is left ten calls, nine of a buddy store, and a set-up. A free
// list of L loans and C chunks at most has 18 + 13 L + 7 C words in its tables (head 2, loans 4 (L + 1), chunks 3 (C + 1), index
// 5 (L + 1), regions 4 (L + C + 1)): the six of data/ have 91 + 84 + 104 + 117 + 84 + 97 = 577. A buddy store has 12 + 8 L + 2 C beside
// its tree, of which damage_parts says what is tried: of the six of data/ 152 + 144 + 168 + 128 + 176 + 144 = 912 words in all. With 5
// values for each word that makes 5 x (11 x 577 + 10 x 912) = 77,335 calls. A failed write ends the trials with an
// I/O error, and no error of another kind comes; what was written before stays.
ghost use Rattle.text.specs.Written.{Stays};

use crate::calls::{run, set_up};
use crate::stop::Stop;
use counter::{Account, Refusal};
use damage_parts::{
    CALLS, Call, Case, DAMAGES, Done, Place, TABLES, Table, Tally, ask, ask_of, call_of, closed,
    copy_of, held_block, is_raised, is_same, is_tried, large, left_of, print_changed,
    print_no_set_up, row_words, spoilt_row, stray, table_words,
};
use reel::Settings;
use std::io::Write;
use tape::Record;

// A call made on a copy of the row, so that the row stays as it is.
fn answered(s: Settings, a: Account, call: Record, image: &[u64]) -> Done {
    let mut copy = copy_of(s, image);
    run(s, a, call, &mut copy)
}

pub fn case_of(store: u64, s: Settings, a: Account, image: &[u64]) -> Case {
    let free = closed(reel::store_of(s), a);
    let large = large(s, image);
    Case {
        store,
        settings: s,
        free,
        open: answered(s, free, ask(large, 0), image).account,
        held: held_block(image),
        large,
    }
}

// Whether the store is sound: with no order open and an account that agrees, a return that matches no loan is refused by 7 if
// it is, and else by 3.
pub fn is_sound(c: Case, image: &[u64]) -> bool {
    answered(c.settings, c.free, stray(), image).refusal == Some(Refusal::Stale)
}

// Whether the tables are as an order for the call's ask leaves the damaged ones, an object given: it changes no more of them than
// the levels that the ask needs.
fn is_as_raised(c: Case, call: Call, spoilt: &[u64], after: &[u64]) -> bool {
    let s = c.settings;
    let heap = reel::store_of(s).heap;
    let able = c.free.settled(heap, c.free.heap(heap), 1, None);
    let mut raised = copy_of(s, spoilt);
    run(s, able, ask_of(c, call.into()), &mut raised);
    is_same(after, &raised, row_words(s))
}

// Whether a refusal left the tables and the list as it should.
fn is_left(c: Case, call: Call, refusal: Refusal, spoilt: &[u64], after: &[u64]) -> bool {
    if is_raised(c.settings, refusal.number()) {
        is_as_raised(c, call, spoilt, after)
    } else {
        is_same(after, spoilt, row_words(c.settings))
    }
}

// Whether a call that was made on the account, and was refused if it was, left what it should.
fn is_as_told(c: Case, a: Account, call: Call, done: Done, spoilt: &[u64], after: &[u64]) -> bool {
    match done.refusal {
        None => true,
        Some(r) => {
            let expected = left_of(c.settings, a, call.into(), r.number());
            is_left(c, call, r, spoilt, after) & (done.account == expected)
        }
    }
}

// Why a call was refused, where that left something else than it should. The row is asked for on one way alone: where a branch or an
// early end comes between, it is cleared before it is copied.
fn wrong_refusal(c: Case, spoilt: &[u64], call: Call) -> Option<Refusal> {
    let a = if call.has_order() { c.open } else { c.free };
    let mut after = copy_of(c.settings, spoilt);
    let done = run(c.settings, a, call_of(c, call.into()), &mut after);
    let kept = is_as_told(c, a, call, done, spoilt, &after);
    if kept { None } else { done.refusal }
}

fn try_call<W: Write>(
    out: &mut W,
    c: Case,
    spoilt: &[u64],
    p: Place,
    call: Call,
) -> Result<(), Stop>
    ensures kept { Stays (W.contents out.old) (W.contents out.new) }
{
    let Some(refusal) = wrong_refusal(c, spoilt, call) else {
        return Ok(());
    };
    print_changed(
        out,
        c.store,
        p.table,
        p.word as u64,
        p.value,
        call.into(),
        refusal.number(),
    )?;
    Err(Stop::Told)
}

// Set-up takes the tables whatever they hold.
fn try_set_up<W: Write>(out: &mut W, c: Case, spoilt: &[u64]) -> Result<(), Stop>
    ensures kept { Stays (W.contents out.old) (W.contents out.new) }
{
    let mut after = copy_of(c.settings, spoilt);
    if set_up(c.settings, &mut after) {
        return Ok(());
    }
    print_no_set_up(out, c.store)?;
    Err(Stop::Told)
}

fn try_damage<W: Write>(
    out: &mut W,
    c: Case,
    image: &[u64],
    p: Place,
    before: Tally,
) -> Result<Tally, Stop>
    ensures kept { Stays (W.contents out.old) (W.contents out.new) }
{
    let spoilt = spoilt_row(c.settings, image, p);
    let mut t = before;
    for call in CALLS {
        if call.is_of(c.settings) {
            try_call(out, c, &spoilt, p, call)?;
            t = t.one_call();
        }
    }
    try_set_up(out, c, &spoilt)?;
    Ok(t.one_call())
}

fn try_word<W: Write>(
    out: &mut W,
    c: Case,
    image: &[u64],
    table: Table,
    word: usize,
    before: Tally,
) -> Result<Tally, Stop>
    ensures kept { Stays (W.contents out.old) (W.contents out.new) }
{
    let mut t = before.one_word();
    for damage in DAMAGES {
        let p = Place {
            table: table.into(),
            word,
            value: damage.into(),
        };
        t = try_damage(out, c, image, p, t)?;
    }
    Ok(t)
}

fn try_table<W: Write>(
    out: &mut W,
    c: Case,
    image: &[u64],
    table: Table,
    before: Tally,
) -> Result<Tally, Stop>
    ensures kept { Stays (W.contents out.old) (W.contents out.new) }
{
    let mut t = before;
    for word in 0..table_words(c.settings, table.into()) {
        if is_tried(c.settings, image, table.into(), word) {
            t = try_word(out, c, image, table, word, t)?;
        }
    }
    Ok(t)
}

pub fn try_tables<W: Write>(
    out: &mut W,
    c: Case,
    image: &[u64],
    before: Tally,
) -> Result<Tally, Stop>
    ensures kept { Stays (W.contents out.old) (W.contents out.new) }
{
    let mut t = before.one_store();
    for table in TABLES {
        t = try_table(out, c, image, table, t)?;
    }
    Ok(t)
}
