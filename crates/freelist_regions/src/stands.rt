// Where a place of a chunk stands among the free regions, which are sorted by chunk and start: by halves.
ghost use Rattle.std.specs.Prelude.{◌≡◌, ◌+◌, ◌*◌, ◌<◌, ◌≤◌, length};
ghost use Rattle.words.specs.Words.{cell_of};
ghost use Rattle.freelist_rules.specs.Records.{region_words, region_chunk_at, region_start_at};
ghost use Rattle.freelist_regions.specs.Stand.{after, Parting, Parts};

use crate::records::word_at;
use freelist_rules::{REGION_CHUNK_AT, REGION_START_AT};

// Whether region i comes after the place of the chunk.
fn is_after(t: &[u64], i: usize, chunk: u64, place: u64) -> bool
    requires { cell_of region_start_at region_words i < length t.now }
    ensures { result ≡ after t.now region_chunk_at region_words chunk place i }
{
    let c = word_at(t, REGION_CHUNK_AT, i);
    let p = word_at(t, REGION_START_AT, i);
    (chunk < c) | ((chunk == c) & (place < p))
}

// Where those of the first n regions that come after the place begin. How many turns it takes n alone says, and each moves one
// number: no jump that a processor would have to guess.
pub fn stands_at(t: &[u64], n: usize, chunk: u64, place: u64) -> usize
    requires n_in_bounds { region_words + region_words * n ≤ length t.now }
    requires parting { Parting (after t.now region_chunk_at region_words chunk place) n }
    ensures { Parts (after t.now region_chunk_at region_words chunk place) n result }
{
    // no `partition_point`: the places stand in records of several words, and a slice's own search compares its words
    let mut lo = 0;
    let mut left = n + 1;
    while 1 < left {
        let half = left / 2;
        let mid = lo + half;
        lo = if is_after(t, mid - 1, chunk, place) {
            lo
        } else {
            mid
        };
        left -= half;
    }
    lo
}
