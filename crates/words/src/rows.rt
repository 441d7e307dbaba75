// Room made and closed among records of one width, densely behind a lent table's own.
ghost use Rattle.std.specs.Prelude.{◌≡◌, ◌≤◌, ◌<◌};
ghost use Rattle.words.specs.Words.{widest, closed, opened};

// Of n records of w words the i-th goes: those past it move down by one.
pub fn close_row(t: &mut [u64], w: usize, n: usize, i: usize)
    requires { (0 < w) × (w ≤ widest) }
    ensures { t.new ≡ closed w n i t.old }
{
    if n <= t.len() {
        if i < n {
            let at = w + w * i;
            crate::moves::shift(t, at + w, at, w * (n - i - 1));
        }
    }
}

// Of n records of w words those from the i-th on move up by one, which leaves room at i.
pub fn open_row(t: &mut [u64], w: usize, n: usize, i: usize)
    requires { (0 < w) × (w ≤ widest) }
    ensures { t.new ≡ opened w n i t.old }
{
    if n <= t.len() {
        if i <= n {
            let at = w + w * i;
            crate::moves::shift(t, at, at + w, w * (n - i));
        }
    }
}
