// A table of which every word is written.
ghost use Rattle.std.specs.Prelude.{◌≡◌, length, replicate};
ghost use Rattle.words.specs.Words.{blank};

use crate::MARK_AT;

// Every word is v from now on.
pub fn fill(t: &mut [u64], v: u64)
    ensures { t.new ≡ replicate (length t.old) v }
{
    t.fill(v);
}

// The mark m stands first from now on, and v in every other word.
pub fn put_blank(t: &mut [u64], m: u64, v: u64)
    ensures { t.new ≡ blank (length t.old) m v }
{
    fill(t, v);
    crate::put(t, MARK_AT, m);
}
