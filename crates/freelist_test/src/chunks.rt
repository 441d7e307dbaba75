// The chunk size now, and each chunk.
ghost use Rattle.std.specs.Prelude.{◌≡◌, ◌≤◌};
ghost use Rattle.counter.specs.InTable.{FreeListIn};
ghost use Rattle.counter.specs.Limits.{chunks_most};
ghost use Rattle.words.specs.Rows.{rows};
ghost use Rattle.freelist_rules.specs.Records.{chunk_row};
ghost use Rattle.freelist_rules.specs.Walk.{sized_ok, chunk_ok};
ghost use Rattle.freelist_test.specs.Parts.{counted, each_ok, chunks_ok};

use counter::FreeListSettings;
use freelist_rules::{CHUNK_MEMORY_AT, CHUNK_WORDS};
use store_rules::Chunk;

// Whether z is the start size doubled so often, or the final size where that is reached. Below the final size no doubling
// leaves a word.
fn is_sized(s: FreeListSettings, z: u64) -> bool
    requires { FreeListIn s }
    ensures { result ≡ sized_ok s z }
{
    if s.last <= z {
        return z == s.last;
    }
    let mut p = s.start;
    // no `for`: it doubles
    while p < z {
        p = 2 * p;
    }
    z == p
}

// Whether a chunk has a number that was given, and a size that is allowed and at most the chunk size now.
fn is_chunk(s: FreeListSettings, made: u64, size: u64, c: Chunk) -> bool
    requires { FreeListIn s }
    ensures { result ≡ chunk_ok s (counted 0 made size) c }
{
    (c.number <= made) & (is_sized(s, c.size) & (c.size <= size))
}

// Whether the numbers of the first k chunks rise from 1 on, and each of the chunks is right.
fn is_each(s: FreeListSettings, made: u64, size: u64, chunks: &[u64], k: usize) -> bool
    requires { FreeListIn s }
    ensures { result ≡ each_ok s made size (rows chunk_row k chunks.now) }
{
    let mut before = 0u64;
    for i in 0..k {
        let c = freelist_regions::chunk_at(chunks, i);
        if !((before < c.number) & is_chunk(s, made, size, c)) {
            return false;
        }
        before = c.number;
    }
    true
}

// Whether the chunk size now and the first k chunks are right, and no memory is held twice.
pub fn are_chunks(s: FreeListSettings, made: u64, size: u64, chunks: &[u64], k: usize) -> bool
    requires { FreeListIn s × (k ≤ chunks_most) }
    ensures { result ≡ chunks_ok s made size (rows chunk_row k chunks.now) }
{
    if !is_sized(s, size) {
        return false;
    }
    if !is_each(s, made, size, chunks, k) {
        return false;
    }
    distinct::is_distinct(chunks, CHUNK_MEMORY_AT, CHUNK_WORDS, k)
}
