// The table of free regions with its counts.
ghost use Rattle.std.specs.Prelude.{◌≡◌, cond, [], ◌∷◌, ◌++◌, ◌+◌, ◌≤◌, ◌<◌, length, get_or, set};
ghost use Rattle.words.specs.Rows.{rows};
ghost use Rattle.freelist_rules.specs.Records.{chunk_row};
ghost use Rattle.freelist_rules.specs.Pieces.{lo, hi, Rising};
ghost use Rattle.freelist_rules.specs.Join.{insert};
ghost use Rattle.freelist_rules.specs.Release.{wholly};
ghost use Rattle.freelist_rules.specs.Threads.{cut_gaps, insert_gap, around};
ghost use Rattle.freelist_rules.specs.Tables.{regions_most, region_count_at, whole_at, chunks_at, laid_gaps, RegionsFit, gaps_of, regions_of};
ghost use Rattle.freelist_regions.specs.Order.{RegionsStand, LowPlace};
ghost use Rattle.freelist_marks.specs.Releasable.{NumbersRise};

use counter::FreeListSettings;
use freelist_rules::{Gap, REGION_COUNT_AT, WHOLE_AT};
use store_rules::Region;

// There are so many regions, and so many of them are all of their chunk.
fn count_regions(regions: &mut [u64], n: u64, whole: u64)
    requires { whole_at < length regions.old }
    ensures { regions.new ≡ set (set regions.old region_count_at n) whole_at whole }
{
    regions[REGION_COUNT_AT] = n;
    regions[WHOLE_AT] = whole;
}

// Region i ends at `place` from now on, where the block of the record `loan` starts, or is gone where that is its start; `whole`
// are all of their chunk then.
pub fn cut(s: FreeListSettings, regions: &mut [u64], i: usize, place: u64, loan: u64, whole: u64)
    requires { RegionsFit s regions.old × (i < get_or regions.old region_count_at 0) }
    ensures { regions.new ≡ laid_gaps (cut_gaps place i loan (gaps_of regions.old)) whole regions.old }
{
    let n = regions[REGION_COUNT_AT] as usize;
    let left = freelist_regions::cut_region(regions, n, i, place, loan);
    count_regions(regions, left as u64, whole);
}

// A returned block, which the record `loan` was on loan on, goes among the regions, behind the record `front`.
pub fn join(
    s: FreeListSettings,
    chunks: &[u64],
    regions: &mut [u64],
    b: Region,
    loan: u64,
    front: u64,
)
    requires regions_fit { RegionsFit s regions.old × Rising lo hi 1 0 (regions_of regions.old) × RegionsStand (regions_of regions.old) × LowPlace b.start × (length (insert b (regions_of regions.old)) ≤ regions_most s) }
    requires chunks_at_in_bounds { (chunks_at < length chunks.now) × NumbersRise (rows chunk_row (get_or chunks.now chunks_at 0) chunks.now) × (get_or regions.old whole_at 0 ≤ get_or regions.old region_count_at 0) }
    ensures { regions.new ≡ laid_gaps (insert_gap b loan front (gaps_of regions.old)) (get_or regions.old whole_at 0 + cond (wholly (rows chunk_row (get_or chunks.now chunks_at 0) chunks.now) (around b (regions_of regions.old))) 1 0) regions.old }
{
    let n = regions[REGION_COUNT_AT] as usize;
    let whole = regions[WHOLE_AT];
    let joined = freelist_regions::join_region(regions, n, b, loan, front);
    let now_whole = crate::wholes::with(chunks, whole, joined.region);
    count_regions(regions, joined.count as u64, now_whole);
}

// A region that is all of its chunk, after the others.
pub fn append(s: FreeListSettings, regions: &mut [u64], g: Gap)
    requires { RegionsFit s regions.old × (get_or regions.old region_count_at 0 < regions_most s) × (get_or regions.old whole_at 0 ≤ get_or regions.old region_count_at 0) }
    ensures { regions.new ≡ laid_gaps (gaps_of regions.old ++ (g ∷ [])) (get_or regions.old whole_at 0 + 1) regions.old }
{
    let n = regions[REGION_COUNT_AT] as usize;
    let whole = regions[WHOLE_AT];
    freelist_regions::put_gap(regions, n, g);
    count_regions(regions, (n + 1) as u64, whole + 1);
}
