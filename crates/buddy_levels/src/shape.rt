// Where the words of a buddy store's tree and the nodes of its loans stand, and how long its nodes are.
ghost use Rattle.std.specs.Prelude.{◌≡◌, ◌+◌, ◌*◌, ◌^◌, ◌<◌, ◌≤◌};
ghost use Rattle.counter.specs.Limits.{levels_most, pairs_most, loans_most, chunks_most, minimal_bits};
ghost use Rattle.book_rules.specs.Book.{index_words};
ghost use Rattle.buddy_trees.specs.Trees.{bytes};
ghost use Rattle.buddy_rules.specs.Level.{base_most, level_start};
ghost use Rattle.buddy_rules.specs.Tables.{place_words};

use crate::{HEADER_WORDS, OWN_WORDS, PAIR_WORDS};
use book::ENTRY_WORDS;
use buddy_rules::PLACE_WORDS;
use counter::LEVELS_MOST;

// Where level l begins.
pub fn level_from(pairs: usize, l: usize) -> usize
    requires { (pairs ≤ pairs_most) × (l ≤ levels_most) }
    ensures value { result ≡ level_start pairs l }
    ensures upper_bound { result ≤ base_most }
{
    OWN_WORDS + (HEADER_WORDS + PAIR_WORDS * pairs) * l
}

// Where the word of the chunk place vacated last stands, and those of the chunk places after it.
pub fn chunks_from(pairs: usize) -> usize
    requires { pairs ≤ pairs_most }
    ensures value { result ≡ level_start pairs levels_most }
    ensures upper_bound { result ≤ base_most }
{
    level_from(pairs, LEVELS_MOST as usize)
}

// How many words the tree takes.
pub fn tree_words(pairs: usize, chunks: usize) -> usize
    requires { (pairs ≤ pairs_most) × (chunks ≤ chunks_most) }
    ensures value { result ≡ level_start pairs levels_most + (place_words + place_words * chunks) }
    ensures upper_bound { result ≤ base_most }
{
    chunks_from(pairs) + (PLACE_WORDS + PLACE_WORDS * chunks)
}

// Where the node of the loan at a place stands in an index for so many loans: in the column behind the book's entries, at the loan's
// record.
pub fn node_at(loans: usize, place: u64) -> usize
    requires { (loans ≤ loans_most) × (place < loans_most) }
    ensures { result ≡ index_words loans + (place + 1) }
{
    ENTRY_WORDS + ENTRY_WORDS * loans + (place as usize + 1)
}

// How long a node of a level is.
pub fn node_bytes(minimal: u64, level: u64) -> u64
    requires { (minimal ≤ 2 ^ minimal_bits) × (level ≤ levels_most) }
    ensures value { result ≡ bytes minimal level }
    ensures upper_bound { result ≤ 2 ^ (minimal_bits + levels_most) }
{
    minimal << level
}
