// The search for room, from the last region back.
ghost use Rattle.std.specs.Prelude.{◌≡◌, ℕ, ◌+◌, ◌*◌, ◌<◌, ◌≤◌, true, false, if◌then◌else◌, Some, None, length};
ghost use Rattle.rounding_rules.specs.Masks.{Ones};
ghost use Rattle.words.specs.Words.{cell_of};
ghost use Rattle.words.specs.Rows.{rows};
ghost use Rattle.freelist_rules.specs.Records.{region, gap_row, region_words, region_end_at};
ghost use Rattle.freelist_rules.specs.Threads.{free_of};
ghost use Rattle.freelist_rules.specs.Place.{cut, fits_in, find};
ghost use Rattle.freelist_regions.specs.Found.{found_of, Starts, NoneFits};

use crate::records::word_at;
use freelist_rules::{REGION_END_AT, REGION_START_AT};

// So many regions are passed by at once, in two halves.
const AT_ONCE: usize = 4;

const HALF: usize = 2;

// The region that serves, and where its block starts.
#[derive(Clone, Copy)]
pub struct Fit {
    pub region: usize,
    pub start: u64,
}

// Whether a region has as many bytes: most that do not serve fail by this alone. Where it fails, no mask makes the region serve.
fn is_long(start: u64, end: u64, size: u64) -> bool
    ensures { result ≡ false → (mask chunk : ℕ) → fits_in mask size (region chunk start end) ≡ false }
{
    size <= std::num::wrapping_sub_u64(end, start)
}

// The same of region i.
fn is_long_at(t: &[u64], i: usize, size: u64) -> bool
    requires { cell_of region_end_at region_words i < length t.now }
    ensures { result ≡ false → NoneFits size t.now i (i + 1) }
{
    let start = word_at(t, REGION_START_AT, i);
    let end = word_at(t, REGION_END_AT, i);
    is_long(start, end, size)
}

// Whether neither of the two regions from i on has as many bytes.
fn are_half_short(t: &[u64], i: usize, size: u64) -> bool
    requires { region_words + region_words * (i + 2) ≤ length t.now }
    ensures { result ≡ true → NoneFits size t.now i (i + 2) }
{
    if is_long_at(t, i + 1, size) {
        return false;
    }
    !is_long_at(t, i, size)
}

// Whether none of the four has.
fn are_short(t: &[u64], i: usize, size: u64) -> bool
    requires { region_words + region_words * (i + 4) ≤ length t.now }
    ensures { result ≡ true → NoneFits size t.now i (i + 4) }
{
    if are_half_short(t, i + HALF, size) {
        return are_half_short(t, i, size);
    }
    false
}

// The first n regions without those at the end that are too short, by fours: most of an ask's time goes by here.
fn without_short(t: &[u64], n: usize, size: u64) -> usize
    requires { region_words + region_words * n ≤ length t.now }
    ensures { (result ≤ n) × NoneFits size t.now result n }
{
    let mut k = n;
    // no `for`: it goes down by fours, as far as four are left
    while AT_ONCE <= k {
        if !are_short(t, k - AT_ONCE, size) {
            return k;
        }
        k -= AT_ONCE;
    }
    k
}

// The highest aligned place for them that ends within it, where it has one.
fn place_in(start: u64, end: u64, mask: u64, size: u64) -> Option<u64>
    requires { Ones 63 mask }
    ensures { (chunk : ℕ) → result ≡ if fits_in mask size (region chunk start end) then Some (cut mask size (region chunk start end)) else None }
{
    if end < size {
        return None;
    }
    let place = rounding::lower_to_unit(end - size, mask);
    if start <= place { Some(place) } else { None }
}

// The last of the first n regions that has an aligned place for `size` bytes that ends within it. `mask` holds the atom mask.
pub fn find_fit(t: &[u64], n: usize, mask: u64, size: u64) -> Option<Fit>
    requires { Ones 63 mask × (region_words + region_words * n ≤ length t.now) }
    ensures result_value { found_of result ≡ find mask size (free_of (rows gap_row n t.now)) }
    ensures starts { Starts mask size (free_of (rows gap_row n t.now)) result }
{
    let mut k = without_short(t, n, size);
    // no `for`: behind a long one that has no place it goes on where `without_short` stops
    while 0 < k {
        k -= 1;
        let start = word_at(t, REGION_START_AT, k);
        let end = word_at(t, REGION_END_AT, k);
        if is_long(start, end, size) {
            if let Some(place) = place_in(start, end, mask, size) {
                return Some(Fit {
                    region: k,
                    start: place,
                });
            }
            k = without_short(t, k, size);
        }
    }
    None
}
