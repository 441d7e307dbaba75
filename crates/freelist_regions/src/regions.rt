// A free region cut short by a block.
ghost use Rattle.std.specs.Prelude.{◌≡◌, ◌+◌, ◌*◌, ◌<◌, ◌≤◌, length};
ghost use Rattle.words.specs.Rows.{rows, laid};
ghost use Rattle.freelist_rules.specs.Records.{gap_row, region_words};
ghost use Rattle.freelist_rules.specs.Threads.{cut_gaps};

use crate::fronts::rename;
use crate::records::{end_at, gap_at};
use freelist_rules::REGION_WORDS;

// Region i of n ends at `place` from now on, where the block of the record `loan` starts, or is gone where that is its start; the
// regions behind the block that named the loan in front of region i name `loan`. How many regions are left.
pub fn cut_region(t: &mut [u64], n: usize, i: usize, place: u64, loan: u64) -> usize
    requires { (i < n) × (region_words + region_words * n ≤ length t.old) }
    ensures value { result ≡ length (cut_gaps place i loan (rows gap_row n t.old)) }
    ensures t_after { t.new ≡ laid gap_row (cut_gaps place i loan (rows gap_row n t.old)) t.old }
{
    let g = gap_at(t, i);
    if g.start < place {
        end_at(t, i, place);
        rename(t, n, i + 1, g.front, loan);
        n
    } else {
        words::close_row(t, REGION_WORDS, n, i);
        rename(t, n - 1, i, g.front, loan);
        n - 1
    }
}
