// The chunk that a return keeps though it is wholly free.
ghost use Rattle.std.specs.Prelude.{◌≡◌};
ghost use Rattle.words.specs.Rows.{rows};
ghost use Rattle.freelist_rules.specs.Records.{chunk_row, gap_row};
ghost use Rattle.freelist_rules.specs.Threads.{free_of};
ghost use Rattle.freelist_marks.specs.Releasable.{NumbersRise};
ghost use Rattle.freelist_release.specs.Spared.{spared_in};

use freelist_marks::goes_at;

// How many of the wholly free chunks stay: 1 where the last region is spared and is all of its chunk.
pub fn spared(chunks: &[u64], k: usize, regions: &[u64], n: usize, spare: bool) -> u64
    requires { NumbersRise (rows chunk_row k chunks.now) }
    ensures { result ≡ spared_in (rows chunk_row k chunks.now) spare (free_of (rows gap_row n regions.now)) }
{
    if !(spare & (0 < n)) {
        return 0;
    }
    u64::from(goes_at(chunks, k, regions, n - 1, false))
}
