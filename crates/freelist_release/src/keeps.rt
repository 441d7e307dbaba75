// What stays, moved together in its table. Records are read before those in front of them are written over. Two loops and not one
// generic one: they differ in the record, in how it is read and written, and in the test.
ghost use Rattle.std.specs.Prelude.{◌≡◌, ◌*◌, ◌≤◌, ◌+◌, length};
ghost use Rattle.words.specs.Rows.{rows, laid};
ghost use Rattle.freelist_rules.specs.Records.{chunk_row, chunk_words, gap_row, region_words};
ghost use Rattle.freelist_rules.specs.Threads.{staying_gaps};
ghost use Rattle.freelist_release.specs.Listed.{unlisted};
ghost use Rattle.freelist_marks.specs.Releasable.{NumbersRise};

use freelist_marks::goes_at;
use freelist_regions::{chunk_at, gap_at, put_chunk, put_gap};

// The regions that stay; how many they are.
pub fn keep_regions(chunks: &[u64], k: usize, regions: &mut [u64], n: usize, spare: bool) -> usize
    requires { (region_words + region_words * n ≤ length regions.old) × NumbersRise (rows chunk_row k chunks.now) }
    ensures value { result ≡ length (staying_gaps (rows chunk_row k chunks.now) spare (rows gap_row n regions.old)) }
    ensures regions_after { regions.new ≡ laid gap_row (staying_gaps (rows chunk_row k chunks.now) spare (rows gap_row n regions.old)) regions.old }
{
    let mut kept = 0;
    for i in 0..n {
        if !goes_at(chunks, k, regions, i, spare & (i + 1 == n)) {
            let g = gap_at(regions, i);
            put_gap(regions, kept, g);
            kept += 1;
        }
    }
    kept
}

// The chunks whose memory is not listed; how many they are.
pub fn keep_chunks(chunks: &mut [u64], k: usize, listed: &[u64]) -> usize
    requires { chunk_words + chunk_words * k ≤ length chunks.old }
    ensures value { result ≡ length (unlisted listed.now (rows chunk_row k chunks.old)) }
    ensures chunks_after { chunks.new ≡ laid chunk_row (unlisted listed.now (rows chunk_row k chunks.old)) chunks.old }
{
    let mut kept = 0;
    for i in 0..k {
        let c = chunk_at(chunks, i);
        if !listed.contains(&c.memory) {
            put_chunk(chunks, kept, c);
            kept += 1;
        }
    }
    kept
}
