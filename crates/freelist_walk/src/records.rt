// Records read whole, and where the index leads from a record, of tables that have them.
ghost use Rattle.std.specs.Prelude.{◌≡◌, ◌≤◌, ◌<◌, length};
ghost use Rattle.counter.specs.Limits.{loans_most};
ghost use Rattle.words.specs.Words.{cell_of};
ghost use Rattle.words.specs.Rows.{row};
ghost use Rattle.freelist_rules.specs.Records.{chunk_words, chunk_bytes_at, chunk_row};
ghost use Rattle.freelist_rules.specs.Threads.{thread_words, after_in, before_in};

use book::ENTRY_WORDS;
use freelist_rules::{CHUNK_BYTES_AT, CHUNK_MEMORY_AT, CHUNK_NUMBER_AT, CHUNK_WORDS};
use store_rules::Chunk;

// The chunk at i. Beside freelist_regions::chunk_at, which serves any i, as a search that finds none asks: here the record is
// there, and no word is tested.
pub fn chunk_in(t: &[u64], i: usize) -> Chunk
    requires { cell_of chunk_bytes_at chunk_words i < length t.now }
    ensures { result ≡ row chunk_row i t.now }
{
    let at = CHUNK_WORDS * i;
    Chunk {
        number: t[at + CHUNK_NUMBER_AT],
        memory: t[at + CHUNK_MEMORY_AT],
        size: t[at + CHUNK_BYTES_AT],
    }
}

// The record behind record r by place, in an index of so many loans.
pub fn record_after(index: &[u64], most: usize, r: usize) -> usize
    requires { (r ≤ most) × (most ≤ loans_most) × (thread_words most ≤ length index.now) }
    ensures { result ≡ after_in most index.now r }
{
    index[ENTRY_WORDS + ENTRY_WORDS * most + r] as usize
}

// The record in front of it.
pub fn record_before(index: &[u64], most: usize, r: usize) -> usize
    requires { (r ≤ most) × (most ≤ loans_most) × (thread_words most ≤ length index.now) }
    ensures { result ≡ before_in most index.now r }
{
    index[ENTRY_WORDS + ENTRY_WORDS * most + (most + 1) + r] as usize
}
