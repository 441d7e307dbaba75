// Chunks found by number.
ghost use Rattle.std.specs.Prelude.{◌≡◌};
ghost use Rattle.words.specs.Rows.{rows};
ghost use Rattle.freelist_rules.specs.Records.{chunk_row};
ghost use Rattle.freelist_marks.specs.Numbered.{numbered};
ghost use Rattle.freelist_marks.specs.Releasable.{NumbersRise};

use freelist_regions::{chunk_at, seat};
use store_rules::Chunk;

// The chunk with this number, of the first k.
pub fn find_chunk(t: &[u64], k: usize, number: u64) -> Option<Chunk>
    requires { NumbersRise (rows chunk_row k t.now) }
    ensures { result ≡ numbered number (rows chunk_row k t.now) }
{
    let j = seat(t, k, number);
    let c = chunk_at(t, j);
    if (j < k) & (number == c.number) {
        Some(c)
    } else {
        None
    }
}
