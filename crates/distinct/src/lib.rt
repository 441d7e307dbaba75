// Whether one word of a table's records differs in all of them: at once where it rises from record to record, else by sorting, n log n
// in the records.
#![tactic(auto)]

mod sorting;

ghost use Rattle.std.specs.Prelude.{◌≡◌, true, ◌≤◌, ◌<◌, length};
ghost use Rattle.lists.specs.Members.{Distinct};
ghost use Rattle.words.specs.Words.{widest, at_most};
ghost use Rattle.counter.specs.Limits.{chunks_most};
ghost use Rattle.distinct.specs.Column.{column};
ghost use Rattle.distinct.specs.Order.{climbing};

use counter::CHUNKS_MOST;
pub use sorting::sort;
use words::Column;

// Whether the words at `at` of the first n records, of w words each, all differ.
pub fn is_distinct(t: &[u64], at: usize, w: usize, n: usize) -> bool
    requires { (0 < w) × (w ≤ widest) × (n ≤ chunks_most) × (at ≤ at_most) }
    ensures { (result ≡ true → Distinct (column t.now at w n)) × (Distinct (column t.now at w n) → result ≡ true) }
{
    let mut found = [0u64; CHUNKS_MOST];
    let mut spare = [0u64; CHUNKS_MOST];
    all_differ(t, Column { at, width: w }, &mut found[..n], &mut spare)
}

// The same of as many records as `found` has words. Memory numbers that a caller counts up rise, and are not sorted.
fn all_differ(t: &[u64], c: Column, found: &mut [u64], spare: &mut [u64]) -> bool
    requires { length found.old ≤ length spare.old }
    ensures { (result ≡ true → Distinct (column t.now c.at c.width (length found.old))) × (Distinct (column t.now c.at c.width (length found.old)) → result ≡ true) }
{
    gather(t, c, found);
    if climbs(found) {
        return true;
    }
    sorting::sort(found, spare);
    climbs(found)
}

// The column's words, as many as `found` has room for.
fn gather(t: &[u64], c: Column, found: &mut [u64])
    ensures { found.new ≡ column t.now c.at c.width (length found.old) }
{
    for (i, x) in found.iter_mut().enumerate() {
        *x = c.word(t, i);
    }
}

// Whether each word is above the one before it.
fn climbs(a: &[u64]) -> bool
    ensures { result ≡ climbing a.now }
{
    a.is_sorted_by(|x, y| *x < *y)
}
