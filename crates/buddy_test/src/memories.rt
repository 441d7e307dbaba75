// The memory numbers of the chunks: none is held twice.
ghost use Rattle.std.specs.Prelude.{◌≡◌, [], ◌≤◌, length, take, get_or};
ghost use Rattle.counter.specs.Limits.{chunks_most};
ghost use Rattle.buddy_levels.specs.Seen.{part_settings, level_part};
ghost use Rattle.buddy_rules.specs.Tables.{chunk_places_at, memories};
ghost use Rattle.buddy_rules.specs.Test.{memories_ok};

use buddy_rules::{CHUNK_SIZE_AT, CHUNK_WORDS, MEMORY_AT};
use counter::CHUNKS_MOST;

// The memory numbers of the chunks in the first n places, at the front of `found`. Answers how many.
fn gather_held(chunks: &[u64], n: usize, found: &mut [u64]) -> usize
    requires { (n ≤ length found.old) × (n ≡ get_or chunks.now chunk_places_at 0) }
    ensures found_after { take result found.new ≡ memories (level_part 0 chunks.now []) n }
    ensures upper_bound { (result ≤ n) × (length found.new ≡ length found.old) }
{
    let mut k = 0;
    for c in 0..n {
        if words::cell(chunks, CHUNK_SIZE_AT, CHUNK_WORDS, c) != 0 {
            found[k] = words::cell(chunks, MEMORY_AT, CHUNK_WORDS, c);
            k += 1;
        }
    }
    k
}

// Whether no two of the chunks in the first n places have one memory.
pub fn are_memories(chunks: &[u64], n: usize) -> bool
    requires { (n ≤ chunks_most) × (n ≡ get_or chunks.now chunk_places_at 0) }
    ensures { result ≡ memories_ok (part_settings 0 0 0) (level_part 0 chunks.now []) }
{
    let mut found = [0u64; CHUNKS_MOST];
    are_apart(chunks, n, &mut found)
}

// The same, with room for the memory numbers.
fn are_apart(chunks: &[u64], n: usize, found: &mut [u64]) -> bool
    requires { (n ≤ chunks_most) × (n ≤ length found.old) × (n ≡ get_or chunks.now chunk_places_at 0) }
    ensures { result ≡ memories_ok (part_settings 0 0 0) (level_part 0 chunks.now []) }
{
    let k = gather_held(chunks, n, found);
    distinct::is_distinct(found, 0, 1, k)
}
