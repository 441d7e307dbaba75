// Where a number stands among chunks sorted by number, by halves.
ghost use Rattle.freelist_regions.specs.Seat.{reaches};
ghost use Rattle.freelist_regions.specs.Stand.{Parting, Parts};

use freelist_rules::{CHUNK_NUMBER_AT, CHUNK_WORDS};

// Where those of the first k chunks that have this number or a higher one begin.
pub fn seat(t: &[u64], k: usize, number: u64) -> usize
    requires { Parting (reaches t.now number) k }
    ensures { Parts (reaches t.now number) k result }
{
    // no `partition_point`: the numbers stand in records of several words, and a slice's own search compares its words
    let mut lo = 0;
    let mut hi = k;
    while lo < hi {
        let mid = lo + (hi - lo) / 2;
        let c = words::cell(t, CHUNK_NUMBER_AT, CHUNK_WORDS, mid);
        if number <= c {
            hi = mid;
        } else {
            lo = mid + 1;
        }
    }
    lo
}
