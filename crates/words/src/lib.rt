// A lent table of words: total reads and writes, and words moved within it by blocks.
// No word that a table holds can make any of these fail, so what is built on them equals its definition on torn tables too.
#![tactic(auto)]

mod columns;
mod filling;
mod moves;
mod rows;

ghost use Rattle.std.specs.Prelude.{◌≡◌, ◌≤◌, ◌<◌, get_or, set};
ghost use Rattle.words.specs.Words.{widest, at_most, cell_of};

pub use columns::Column;
pub use filling::{fill, put_blank};
pub use moves::shift;
pub use rows::{close_row, open_row};

// Where a table's mark stands; specs/Words has the same name.
pub const MARK_AT: usize = 0;

// The word at a place, 0 past the end.
pub fn word(t: &[u64], i: usize) -> u64
    ensures { result ≡ get_or t.now i 0 }
{
    if i < t.len() { t[i] } else { 0 }
}

// A word put at a place, nowhere past the end.
pub fn put(t: &mut [u64], i: usize, v: u64)
    ensures { t.new ≡ set t.old i v }
{
    if i < t.len() {
        t[i] = v;
    }
}

// The word `at` words into the record at i, of records of w words; 0 past the end.
pub fn cell(t: &[u64], at: usize, w: usize, i: usize) -> u64
    requires { (0 < w) × (w ≤ widest) × (at ≤ at_most) }
    ensures { result ≡ get_or t.now (cell_of at w i) 0 }
{
    if i < t.len() {
        return word(t, at + w * i);
    }
    0
}

// The same place written, nowhere past the end.
pub fn put_cell(t: &mut [u64], at: usize, w: usize, i: usize, v: u64)
    requires { (0 < w) × (w ≤ widest) × (at ≤ at_most) }
    ensures { t.new ≡ set t.old (cell_of at w i) v }
{
    if i < t.len() {
        put(t, at + w * i, v);
    }
}
