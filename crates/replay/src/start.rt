// A fresh store's tables, lent at the lengths that its settings ask for.
ghost use Rattle.text.specs.Written.{Stays};

use crate::run::run;
use buddy_levels::{HEADER_WORDS, PAIR_WORDS};
use buddy_rules::PLACE_WORDS;
use counter::{CHUNKS_MOST, LEVELS_MOST, LOANS_MOST, PAIRS_MOST};
use freelist_rules::{CHUNK_WORDS, COLUMNS, HEAD_WORDS, REGION_WORDS};
use reel::Limits;
use std::io;
use std::io::{Read, Write};
use tape::Start;

// each table at the greatest limits, in words, for either engine: the heads are as long, a free list's chunks and index are the longer
const LOANS_WORDS: usize = store_rules::LOAN_WORDS + store_rules::LOAN_WORDS * LOANS_MOST;

const CHUNKS_WORDS: usize = CHUNK_WORDS + CHUNK_WORDS * CHUNKS_MOST;

const INDEX_WORDS: usize = book::ENTRY_WORDS
    + book::ENTRY_WORDS * LOANS_MOST
    + COLUMNS * (LOANS_MOST + 1);

// a buddy store's tree, which is longer than the regions: its own record, the levels, the chunk places with theirs; and four words
// for each loan
const TREE_WORDS: usize = buddy_levels::OWN_WORDS
    + (HEADER_WORDS + PAIR_WORDS * PAIRS_MOST) * (LEVELS_MOST as usize)
    + PLACE_WORDS
    + PLACE_WORDS * CHUNKS_MOST;

const ROOM_WORDS: usize = TREE_WORDS + REGION_WORDS * LOANS_MOST;

pub fn begin<W: Write>(input: &mut impl Read, out: &mut W, start: Start) -> io::Result<()>
    ensures kept { Stays (W.contents out.old) (W.contents out.new) }
{
    let lengths = reel::table_lengths(
        start.settings,
        Limits {
            loans: LOANS_MOST,
            chunks: CHUNKS_MOST,
            pairs: PAIRS_MOST,
        },
    );
    let mut head = [0u64; HEAD_WORDS];
    let mut loans = [0u64; LOANS_WORDS];
    let mut chunks = [0u64; CHUNKS_WORDS];
    let mut index = [0u64; INDEX_WORDS];
    let mut own = [0u64; ROOM_WORDS];
    replay(
        input,
        out,
        start,
        &mut head[..lengths.head],
        &mut loans[..lengths.loans],
        &mut chunks[..lengths.chunks],
        &mut index[..lengths.index],
        &mut own[..lengths.own],
    )
}

fn replay<W: Write>(
    input: &mut impl Read,
    out: &mut W,
    start: Start,
    head: &mut [u64],
    loans: &mut [u64],
    chunks: &mut [u64],
    index: &mut [u64],
    own: &mut [u64],
) -> io::Result<()>
    ensures kept { Stays (W.contents out.old) (W.contents out.new) }
{
    let s = start.settings;
    if reel_calls::set_up(s, head, loans, chunks, index, own).is_err() {
        return text::print_set_up_refused(out);
    }
    let heap = reel::store_of(s).heap;
    let fresh = reel::fresh_account(heap, start.heap_size, start.objects);
    run(input, out, s, fresh, head, loans, chunks, index, own)
}
