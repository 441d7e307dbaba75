// The walk down each chunk of a buddy store, from its top node on, which counts down the pairs in use and the loans that it meets.
#![tactic(auto)]

mod view;
mod walk;

ghost use Rattle.std.specs.Prelude.{◌≡◌, ◌≤◌, ◌<◌, get_or};
ghost use Rattle.counter.specs.Limits.{chunks_most};
ghost use Rattle.buddy_levels.specs.Seen.{part_tables};
ghost use Rattle.buddy_rules.specs.Tables.{chunk_places_at};
ghost use Rattle.buddy_rules.specs.Test.{left_chunk, left_chunks};

use buddy_rules::{CHUNK_SIZE_AT, CHUNK_WORDS, FREE_WORD, PLACE_WORDS, TOP_AT};
use slabs::NOWHERE;
pub use view::WalkView;

// Of so many pairs and loans still to be met, how many are left when the chunk at a place, where there is one, has been walked: NOWHERE
// where its size is not one of the store's, or it is not right from its top node down. No chunk is wholly free.
fn left_chunk(w: &WalkView<'_>, c: u64, left: u64, chunks: &[u64]) -> u64
    requires { (c < chunks_most) × (c < get_or chunks.now chunk_places_at 0) }
    ensures { result ≡ left_chunk w.now.settings (part_tables w.now.levels w.now.loans.now chunks.now w.now.index.now w.now.tree.now) c left }
{
    let s = w.settings;
    let size = words::cell(chunks, CHUNK_SIZE_AT, CHUNK_WORDS, c as usize);
    if size == 0 {
        return left;
    }
    let high = rounding::level(size, s.minimal) as u64;
    let first = rounding::level(s.initial, s.minimal) as u64;
    if !((0 < high) & ((first <= high) & (high <= w.levels))) {
        return NOWHERE;
    }
    let top = words::cell(
        w.tree,
        buddy_levels::chunks_from(s.pairs) + (PLACE_WORDS + TOP_AT),
        PLACE_WORDS,
        c as usize,
    );
    if (size != buddy_levels::node_bytes(s.minimal, high)) | (top == FREE_WORD) {
        return NOWHERE;
    }
    walk::left_at_node(size, c, 0, NOWHERE, top, left, high, w)
}

// The same when the chunks in the first n places have been walked.
pub fn left_chunks(w: &WalkView<'_>, n: u64, left: u64, chunks: &[u64]) -> u64
    requires { (n ≤ chunks_most) × (n ≡ get_or chunks.now chunk_places_at 0) }
    ensures { result ≡ left_chunks w.now.settings (part_tables w.now.levels w.now.loans.now chunks.now w.now.index.now w.now.tree.now) n left }
{
    let mut rest = left;
    for c in 0..n {
        if rest == NOWHERE {
            return NOWHERE;
        }
        rest = left_chunk(w, c, rest, chunks);
    }
    rest
}
