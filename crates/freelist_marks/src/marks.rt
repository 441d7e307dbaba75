// The walk over the regions that lists the memory numbers of the chunks that go.
ghost use Rattle.std.specs.Prelude.{◌≡◌, ◌&&◌, not, [], ◌+◌, ◌≤◌, length};
ghost use Rattle.std.proofs.lemmas.List.Edits.{sets};
ghost use Rattle.words.specs.Rows.{row, rows};
ghost use Rattle.counter.specs.Limits.{loans_most, chunks_most};
ghost use Rattle.freelist_rules.specs.Records.{chunk_row, gap_row};
ghost use Rattle.freelist_rules.specs.Release.{wholly, leaving, memories_of, bytes_of};
ghost use Rattle.freelist_rules.specs.Threads.{region_in, free_of};
ghost use Rattle.freelist_marks.specs.Turned.{turned};
ghost use Rattle.freelist_marks.specs.Numbered.{whole_in, going};
ghost use Rattle.freelist_marks.specs.Releasable.{NumbersRise, Releasable};

use crate::chunks::find_chunk;
use freelist_regions::region_at;
use freelist_rules::{REGION_START_AT, REGION_WORDS};
use store_rules::{Chunk, Region};

#[derive(Clone, Copy)]
pub struct Marked {
    pub count: usize,
    pub bytes: u64,
}

// The chunk that the region is all of. Few start at 0, and only those look their chunk up.
fn whole_chunk(chunks: &[u64], k: usize, r: Region) -> Option<Chunk>
    requires { NumbersRise (rows chunk_row k chunks.now) }
    ensures { result ≡ whole_in (rows chunk_row k chunks.now) r }
{
    if r.start != 0 {
        return None;
    }
    let c = find_chunk(chunks, k, r.chunk)?;
    if r.end == c.size { Some(c) } else { None }
}

// Whether the region is all of its chunk.
pub fn is_whole(chunks: &[u64], k: usize, r: Region) -> bool
    requires { NumbersRise (rows chunk_row k chunks.now) }
    ensures { result ≡ wholly (rows chunk_row k chunks.now) r }
{
    whole_chunk(chunks, k, r).is_some()
}

// The chunk that region i is all of, where it is not spared. Of most regions no more than the start is read.
#[inline]
fn going_at(chunks: &[u64], k: usize, regions: &[u64], i: usize, spared: bool) -> Option<Chunk>
    requires { NumbersRise (rows chunk_row k chunks.now) }
    ensures { result ≡ going (rows chunk_row k chunks.now) spared (region_in (row gap_row i regions.now)) }
{
    let start = words::cell(regions, REGION_START_AT, REGION_WORDS, i);
    if (start == 0) & !spared {
        return whole_chunk(chunks, k, region_at(regions, i));
    }
    None
}

// Whether region i is all of its chunk, and is not spared.
pub fn goes_at(chunks: &[u64], k: usize, regions: &[u64], i: usize, spared: bool) -> bool
    requires { NumbersRise (rows chunk_row k chunks.now) }
    ensures { result ≡ (not spared && wholly (rows chunk_row k chunks.now) (region_in (row gap_row i regions.now))) }
{
    going_at(chunks, k, regions, i, spared).is_some()
}

// The first of the first m words goes behind the others.
fn turn(list: &mut [u64], m: usize)
    requires { m ≤ length list.old }
    ensures { list.new ≡ turned m list.old }
{
    if 1 < m {
        let first = words::word(list, 0);
        words::shift(list, 1, 0, m - 1);
        words::put(list, m - 1, first);
    }
}

// The chunks that go, listed: each region that stays sends the first of those listed so far to the back.
pub fn mark(
    chunks: &[u64],
    k: usize,
    regions: &[u64],
    n: usize,
    spare: bool,
    list: &mut [u64],
) -> Marked
    requires k_in_bounds { (k ≤ length list.old) × (n ≤ loans_most + chunks_most) }
    requires releasable { Releasable (rows chunk_row k chunks.now) (free_of (rows gap_row n regions.now)) }
    ensures count_value { result.count ≡ length (leaving (rows chunk_row k chunks.now) spare [] (free_of (rows gap_row n regions.now))) }
    ensures bytes_value { result.bytes ≡ bytes_of (leaving (rows chunk_row k chunks.now) spare [] (free_of (rows gap_row n regions.now))) }
    ensures list_after { list.new ≡ sets list.old 0 (memories_of (rows chunk_row k chunks.now) (leaving (rows chunk_row k chunks.now) spare [] (free_of (rows gap_row n regions.now)))) }
{
    let mut m = 0;
    let mut bytes = 0u64;
    for i in 0..n {
        match going_at(chunks, k, regions, i, spare & (i + 1 == n)) {
            Some(c) => {
                words::put(list, m, c.memory);
                m += 1;
                bytes += c.size;
            }
            None => turn(list, m),
        }
    }
    Marked {
        count: m,
        bytes: bytes,
    }
}
