// Wholly free chunks dropped from a table of chunks and one of regions, whose counts are told, and put into the list.
ghost use Rattle.std.specs.Prelude.{◌≡◌, [], ◌+◌, ◌*◌, ◌≤◌, length};
ghost use Rattle.std.proofs.lemmas.List.Edits.{sets};
ghost use Rattle.words.specs.Rows.{rows, laid};
ghost use Rattle.counter.specs.Limits.{loans_most, chunks_most};
ghost use Rattle.freelist_rules.specs.Records.{chunk_row, chunk_words, gap_row, region_words};
ghost use Rattle.freelist_rules.specs.Release.{leaving, remaining, memories_of, bytes_of};
ghost use Rattle.freelist_rules.specs.Threads.{free_of, staying_gaps};
ghost use Rattle.freelist_marks.specs.Releasable.{Releasable};

use crate::keeps::{keep_chunks, keep_regions};
use freelist_marks::mark;

// How many chunks went and of how many bytes; how many chunks and regions are left.
#[derive(Clone, Copy)]
pub struct Tally {
    pub count: u64,
    pub bytes: u64,
    pub chunks: usize,
    pub regions: usize,
}

// Of k chunks and n free regions, those that are wholly free go; the memory numbers of the chunks go to the front of `list`.
pub fn drop_chunks(
    chunks: &mut [u64],
    k: usize,
    regions: &mut [u64],
    n: usize,
    spare: bool,
    list: &mut [u64],
) -> Tally
    requires k_in_bounds { (chunk_words + chunk_words * k ≤ length chunks.old) × (region_words + region_words * n ≤ length regions.old) × (k ≤ length list.old) × (n ≤ loans_most + chunks_most) }
    requires releasable { Releasable (rows chunk_row k chunks.old) (free_of (rows gap_row n regions.old)) }
    ensures count_value { result.count ≡ length (leaving (rows chunk_row k chunks.old) spare [] (free_of (rows gap_row n regions.old))) }
    ensures bytes_value { result.bytes ≡ bytes_of (leaving (rows chunk_row k chunks.old) spare [] (free_of (rows gap_row n regions.old))) }
    ensures chunks_value { result.chunks ≡ length (remaining (leaving (rows chunk_row k chunks.old) spare [] (free_of (rows gap_row n regions.old))) (rows chunk_row k chunks.old)) }
    ensures regions_value { result.regions ≡ length (staying_gaps (rows chunk_row k chunks.old) spare (rows gap_row n regions.old)) }
    ensures chunks_after { chunks.new ≡ laid chunk_row (remaining (leaving (rows chunk_row k chunks.old) spare [] (free_of (rows gap_row n regions.old))) (rows chunk_row k chunks.old)) chunks.old }
    ensures regions_after { regions.new ≡ laid gap_row (staying_gaps (rows chunk_row k chunks.old) spare (rows gap_row n regions.old)) regions.old }
    ensures list_after { list.new ≡ sets list.old 0 (memories_of (rows chunk_row k chunks.old) (leaving (rows chunk_row k chunks.old) spare [] (free_of (rows gap_row n regions.old)))) }
{
    let m = mark(chunks, k, regions, n, spare, list);
    let left = keep_regions(chunks, k, regions, n, spare);
    let held = keep_chunks(chunks, k, &list[..m.count]);
    Tally {
        count: m.count as u64,
        bytes: m.bytes,
        chunks: held,
        regions: left,
    }
}
