// The words of a store with nothing in it.
ghost use Rattle.std.specs.Prelude.{◌≡◌, length};
ghost use Rattle.words.specs.Words.{blank};
ghost use Rattle.counter.specs.InTable.{FreeListIn};
ghost use Rattle.freelist_rules.specs.Tables.{tables, marks, head_words, Lengths};
ghost use Rattle.freelist_outcomes.specs.SetUp.{fresh_head, fresh_tables};

use counter::FreeListSettings;
use freelist_rules::{CHUNK_SIZE_AT, CHUNKS_MARK, HEAD_MARK, INDEX_MARK, LOANS_MARK, ROOM_MARK};
use words::MARK_AT;

// The mark, and the chunk size at first.
fn fresh_head(s: FreeListSettings, head: &mut [u64])
    requires { length head.old ≡ head_words }
    ensures { head.new ≡ fresh_head s }
{
    words::put(head, MARK_AT, HEAD_MARK);
    words::put(head, CHUNK_SIZE_AT, s.start);
}

// Behind the marks no loan, no chunk and no region, nor what an older store left of one.
fn clear(loans: &mut [u64], chunks: &mut [u64], regions: &mut [u64])
    ensures loans_after { loans.new ≡ blank (length loans.old) marks.loans 0 }
    ensures chunks_after { chunks.new ≡ blank (length chunks.old) marks.chunks 0 }
    ensures regions_after { regions.new ≡ blank (length regions.old) marks.room 0 }
{
    words::put_blank(loans, LOANS_MARK, 0);
    words::put_blank(chunks, CHUNKS_MARK, 0);
    words::put_blank(regions, ROOM_MARK, 0);
}

// Every word of every table is written, whatever was lent.
pub fn fresh(
    s: FreeListSettings,
    head: &mut [u64],
    loans: &mut [u64],
    chunks: &mut [u64],
    index: &mut [u64],
    regions: &mut [u64],
)
    requires { FreeListIn s × Lengths s (tables head.old loans.old chunks.old index.old regions.old) }
    ensures { tables head.new loans.new chunks.new index.new regions.new ≡ fresh_tables s }
{
    fresh_head(s, head);
    clear(loans, chunks, regions);
    words::put_blank(index, INDEX_MARK, 0);
}
