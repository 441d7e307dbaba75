// The loan in front of each free region, told anew.
ghost use Rattle.std.specs.Prelude.{◌≡◌, ◌+◌, ◌*◌, ◌≤◌, length};
ghost use Rattle.words.specs.Rows.{rows, laid};
ghost use Rattle.freelist_rules.specs.Records.{gap_row, region_words};
ghost use Rattle.freelist_rules.specs.Threads.{renamed_from};

use crate::records::{put_word_at, word_at};
use freelist_rules::REGION_FRONT_AT;

// Of n regions those from `from` on that name a as the record of the loan in front name b from now on, up to the first that
// does not.
pub fn rename(t: &mut [u64], n: usize, from: usize, a: u64, b: u64)
    requires { (from ≤ n) × (region_words + region_words * n ≤ length t.old) }
    ensures { t.new ≡ laid gap_row (renamed_from from a b (rows gap_row n t.old)) t.old }
{
    for i in from..n {
        let front = word_at(t, REGION_FRONT_AT, i);
        if front != a {
            return;
        }
        put_word_at(t, REGION_FRONT_AT, i, b);
    }
}
