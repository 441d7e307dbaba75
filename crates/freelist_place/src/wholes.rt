// How many free regions are all of their chunk, once one more or one less is.
ghost use Rattle.std.specs.Prelude.{◌≡◌, cond, ◌+◌, ◌-◌, ◌<◌, length, get_or};
ghost use Rattle.counter.specs.Limits.{spent};
ghost use Rattle.words.specs.Rows.{rows};
ghost use Rattle.freelist_rules.specs.Records.{chunk_row};
ghost use Rattle.freelist_rules.specs.Release.{wholly};
ghost use Rattle.freelist_rules.specs.Tables.{chunks_at};
ghost use Rattle.freelist_marks.specs.Releasable.{NumbersRise};

use freelist_rules::CHUNKS_AT;
use store_rules::Region;

// 1 where the region r is all of its chunk.
fn one_if_whole(chunks: &[u64], r: Region) -> u64
    requires { (chunks_at < length chunks.now) × NumbersRise (rows chunk_row (get_or chunks.now chunks_at 0) chunks.now) }
    ensures { result ≡ cond (wholly (rows chunk_row (get_or chunks.now chunks_at 0) chunks.now) r) 1 0 }
{
    let k = chunks[CHUNKS_AT] as usize;
    u64::from(freelist_marks::is_whole(chunks, k, r))
}

// The region r comes to them, where it is.
pub fn with(chunks: &[u64], whole: u64, r: Region) -> u64
    requires { (chunks_at < length chunks.now) × NumbersRise (rows chunk_row (get_or chunks.now chunks_at 0) chunks.now) × (whole < spent) }
    ensures { result ≡ whole + cond (wholly (rows chunk_row (get_or chunks.now chunks_at 0) chunks.now) r) 1 0 }
{
    whole + one_if_whole(chunks, r)
}

// It is no more among them, where it was; where there were none, no chunk is looked for.
pub fn without(chunks: &[u64], whole: u64, r: Region) -> u64
    requires { (chunks_at < length chunks.now) × NumbersRise (rows chunk_row (get_or chunks.now chunks_at 0) chunks.now) }
    ensures { result ≡ whole - cond (wholly (rows chunk_row (get_or chunks.now chunks_at 0) chunks.now) r) 1 0 }
{
    if whole == 0 {
        return 0;
    }
    whole - one_if_whole(chunks, r)
}
