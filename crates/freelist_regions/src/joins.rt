// A returned block put among the free regions, joined with both neighbours.
ghost use Rattle.std.specs.Prelude.{◌≡◌, ◌+◌, ◌-◌, ◌*◌, ◌^◌, ◌<◌, ◌≤◌, true, ◌&&◌, length, if◌then◌else◌, nat_lt};
ghost use Rattle.words.specs.Words.{cell_of};
ghost use Rattle.words.specs.Rows.{row, rows, laid};
ghost use Rattle.freelist_rules.specs.Records.{gap_row, region_words, region_end_at};
ghost use Rattle.freelist_rules.specs.Pieces.{lo, hi, Rising};
ghost use Rattle.freelist_rules.specs.Join.{meets, insert};
ghost use Rattle.freelist_rules.specs.Threads.{region_in, free_of, insert_gap, around};
ghost use Rattle.freelist_regions.specs.Order.{RegionsStand, LowPlace};
ghost use Rattle.freelist_regions.specs.Settled.{reached, settled, behind, CanSettle};

use crate::fronts::rename;
use crate::records::{put_gap, word_at};
use crate::stands::stands_at;
use freelist_rules::{Gap, REGION_CHUNK_AT, REGION_END_AT, REGION_START_AT, REGION_WORDS};
use store_rules::Region;

// How many regions there are then, and the one that the block is part of.
#[derive(Clone, Copy)]
pub struct Joined {
    pub count: usize,
    pub region: Region,
}

// Whether the region before place k ends where b starts.
fn touches_before(t: &[u64], k: usize, b: Region) -> bool
    requires { region_words + region_words * k ≤ length t.now }
    ensures { result ≡ (nat_lt 0 k && meets (region_in (row gap_row (k - 1) t.now)) b) }
{
    if 0 < k {
        let chunk = word_at(t, REGION_CHUNK_AT, k - 1);
        let end = word_at(t, REGION_END_AT, k - 1);
        (chunk == b.chunk) & (end == b.start)
    } else {
        false
    }
}

// Whether b ends where the region at k, of n, starts.
fn touches_next(t: &[u64], n: usize, k: usize, b: Region) -> bool
    requires { region_words + region_words * n ≤ length t.now }
    ensures { result ≡ (nat_lt k n && meets b (region_in (row gap_row k t.now))) }
{
    if k < n {
        let chunk = word_at(t, REGION_CHUNK_AT, k);
        let start = word_at(t, REGION_START_AT, k);
        (b.chunk == chunk) & (b.end == start)
    } else {
        false
    }
}

// The region that b is part of then, between its neighbours before k and at k, by which of them it touches.
fn reach(t: &[u64], k: usize, b: Region, before: bool, next: bool) -> Region
    requires { (before ≡ true → 0 < k) × (region_words + region_words * k ≤ length t.now) × (next ≡ true → cell_of region_end_at region_words k < length t.now) }
    ensures { result ≡ reached before next (region_in (row gap_row (k - 1) t.now)) (region_in (row gap_row k t.now)) b }
{
    let start = if before {
        word_at(t, REGION_START_AT, k - 1)
    } else {
        b.start
    };
    let end = if next {
        word_at(t, REGION_END_AT, k)
    } else {
        b.end
    };
    Region {
        chunk: b.chunk,
        start: start,
        end: end,
    }
}

// The gap that b is part of, put in place of the neighbours that b touches, or between them; how many there are then.
fn settle(t: &mut [u64], n: usize, k: usize, before: bool, next: bool, g: Gap) -> usize
    requires { CanSettle before next n k t.old }
    ensures value { result ≡ length (settled before next k g (rows gap_row n t.old)) }
    ensures t_after { t.new ≡ laid gap_row (settled before next k g (rows gap_row n t.old)) t.old }
{
    if before {
        if next {
            words::close_row(t, REGION_WORDS, n, k);
            put_gap(t, k - 1, g);
            return n - 1;
        }
        put_gap(t, k - 1, g);
        return n;
    }
    if next {
        put_gap(t, k, g);
        return n;
    }
    words::open_row(t, REGION_WORDS, n, k);
    put_gap(t, k, g);
    n + 1
}

// Where the gaps behind it begin then.
fn past(k: usize, before: bool) -> usize
    requires { k < 2 ^ 63 }
    ensures { result ≡ behind before k }
{
    if before { k } else { k + 1 }
}

// b, which the record `loan` was on loan on, put among n free regions by its place and joined with both neighbours; the record
// `front` is in front of it, and of those behind it that named `loan`.
pub fn join_region(t: &mut [u64], n: usize, b: Region, loan: u64, front: u64) -> Joined
    requires { (region_words + region_words * n ≤ length t.old) × Rising lo hi 1 0 (free_of (rows gap_row n t.old)) × RegionsStand (free_of (rows gap_row n t.old)) × LowPlace b.start × (region_words + region_words * length (insert b (free_of (rows gap_row n t.old))) ≤ length t.old) }
    ensures count_value { result.count ≡ length (insert_gap b loan front (rows gap_row n t.old)) }
    ensures region_value { result.region ≡ around b (free_of (rows gap_row n t.old)) }
    ensures t_after { t.new ≡ laid gap_row (insert_gap b loan front (rows gap_row n t.old)) t.old }
{
    let k = stands_at(t, n, b.chunk, b.start);
    let before = touches_before(t, k, b);
    let next = touches_next(t, n, k, b);
    let region = reach(t, k, b, before, next);
    let g = Gap {
        chunk: region.chunk,
        start: region.start,
        end: region.end,
        front: front,
    };
    let count = settle(t, n, k, before, next, g);
    let from = past(k, before);
    rename(t, count, from, loan, front);
    Joined {
        count: count,
        region: region,
    }
}
