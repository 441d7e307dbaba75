// Whether the loans of a free-list store, as its index leads through them by place, and its free regions fill its chunks: one walk
// over all of them together, which passes each of them once.
#![tactic(auto)]

mod grounds;
mod passes;
mod records;
mod turns;

ghost use Rattle.std.specs.Prelude.{◌≡◌, ◌≤◌, get_or};
ghost use Rattle.words.specs.Rows.{rows};
ghost use Rattle.freelist_rules.specs.Records.{chunk_row, gap_row};
ghost use Rattle.freelist_rules.specs.Tables.{whole_at};
ghost use Rattle.freelist_walk.specs.Turn.{done_at};
ghost use Rattle.freelist_walk.specs.Walked.{walk_ok};

use freelist_rules::WHOLE_AT;
pub use grounds::Ground;
use records::{record_after, record_before};
use turns::{Reached, turn};

// Nothing is left to pass.
fn is_done(ground: &Ground<'_>, s: Reached) -> bool
    requires { s.last ≤ ground.now.most }
    ensures { result ≡ done_at ground.now.most ground.now.index.now ground.now.regions.now ground.now.count s }
{
    let next = record_after(ground.index, ground.most, s.last);
    let back = record_before(ground.index, ground.most, 0);
    let whole = words::word(ground.regions, WHOLE_AT);
    (s.left == 0)
        & ((next == 0) & ((back == s.last) & ((s.region == ground.count) & (s.whole == whole))))
}

// Whether the loans that the index leads through, `live` of the places, and the regions fill the chunks; and whether the regions
// name the loans in front of them, and the whole ones are counted.
pub fn walk(ground: &Ground<'_>, live: usize) -> bool
    requires { live ≤ ground.now.places }
    ensures { result ≡ walk_ok ground.now.most (rows chunk_row ground.now.held ground.now.chunks.now) ground.now.loans.now ground.now.places ground.now.index.now (rows gap_row ground.now.count ground.now.regions.now) live (get_or ground.now.regions.now whole_at 0) }
{
    let mut s = Reached {
        chunk: 0,
        byte: 0,
        last: 0,
        left: live,
        region: 0,
        whole: 0,
    };
    // no `for`: a turn passes a loan of the chunk, or the chunk
    while s.chunk < ground.held {
        let Some(next) = turn(ground, s) else {
            return false;
        };
        s = next;
    }
    is_done(ground, s)
}
