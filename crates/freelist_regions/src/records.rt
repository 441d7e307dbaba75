// Records read and written whole, gaps where the table has them. Any other past the end of its table reads as zeros, and a write
// there does nothing.
ghost use Rattle.std.specs.Prelude.{◌≡◌, ◌<◌, length, slice_index, slice_set};
ghost use Rattle.words.specs.Words.{cell_of};
ghost use Rattle.words.specs.Rows.{row, written};
ghost use Rattle.freelist_rules.specs.Records.{chunk_row, gap_row, region_words, region_end_at, region_front_at};
ghost use Rattle.freelist_rules.specs.Threads.{region_in};
ghost use Rattle.freelist_regions.specs.Ended.{ended_at};

use freelist_rules::{
    CHUNK_BYTES_AT, CHUNK_MEMORY_AT, CHUNK_NUMBER_AT, CHUNK_WORDS, Gap, REGION_CHUNK_AT,
    REGION_END_AT, REGION_FRONT_AT, REGION_START_AT, REGION_WORDS,
};
use store_rules::{Chunk, Region};

// The word of region i, where the table has it: `at` is where that of the first region stands.
pub fn word_at(t: &[u64], at: usize, i: usize) -> u64
    requires { cell_of at region_words i < length t.now }
    ensures { result ≡ slice_index t.now (cell_of at region_words i) }
{
    t[at + REGION_WORDS * i]
}

pub fn region_at(t: &[u64], i: usize) -> Region
    ensures { result ≡ region_in (row gap_row i t.now) }
{
    Region {
        chunk: words::cell(t, REGION_CHUNK_AT, REGION_WORDS, i),
        start: words::cell(t, REGION_START_AT, REGION_WORDS, i),
        end: words::cell(t, REGION_END_AT, REGION_WORDS, i),
    }
}

// A gap that the table has.
pub fn gap_at(t: &[u64], i: usize) -> Gap
    requires { cell_of region_front_at region_words i < length t.now }
    ensures { result ≡ row gap_row i t.now }
{
    Gap {
        chunk: word_at(t, REGION_CHUNK_AT, i),
        start: word_at(t, REGION_START_AT, i),
        end: word_at(t, REGION_END_AT, i),
        front: word_at(t, REGION_FRONT_AT, i),
    }
}

// A word of region i written, where the table has it.
pub fn put_word_at(t: &mut [u64], at: usize, i: usize, v: u64)
    requires { cell_of at region_words i < length t.old }
    ensures { t.new ≡ slice_set t.old (cell_of at region_words i) v }
{
    t[at + REGION_WORDS * i] = v;
}

// A gap written where the table has room for it.
pub fn put_gap(t: &mut [u64], i: usize, g: Gap)
    requires { cell_of region_front_at region_words i < length t.old }
    ensures { t.new ≡ written gap_row i g t.old }
{
    put_word_at(t, REGION_CHUNK_AT, i, g.chunk);
    put_word_at(t, REGION_START_AT, i, g.start);
    put_word_at(t, REGION_END_AT, i, g.end);
    put_word_at(t, REGION_FRONT_AT, i, g.front);
}

// Region i ends at `place` from now on.
pub fn end_at(t: &mut [u64], i: usize, place: u64)
    requires { cell_of region_end_at region_words i < length t.old }
    ensures { t.new ≡ ended_at i place t.old }
{
    put_word_at(t, REGION_END_AT, i, place);
}

pub fn chunk_at(t: &[u64], i: usize) -> Chunk
    ensures { result ≡ row chunk_row i t.now }
{
    Chunk {
        number: words::cell(t, CHUNK_NUMBER_AT, CHUNK_WORDS, i),
        memory: words::cell(t, CHUNK_MEMORY_AT, CHUNK_WORDS, i),
        size: words::cell(t, CHUNK_BYTES_AT, CHUNK_WORDS, i),
    }
}

pub fn put_chunk(t: &mut [u64], i: usize, c: Chunk)
    ensures { t.new ≡ written chunk_row i c t.old }
{
    words::put_cell(t, CHUNK_NUMBER_AT, CHUNK_WORDS, i, c.number);
    words::put_cell(t, CHUNK_MEMORY_AT, CHUNK_WORDS, i, c.memory);
    words::put_cell(t, CHUNK_BYTES_AT, CHUNK_WORDS, i, c.size);
}
