// Words moved within a lent table, four a turn, whichever way the two runs of words overlap. By the library's `copy_within` the archive
// of a free list would want memmove from outside.
ghost use Rattle.std.specs.Prelude.{◌≡◌, ◌+◌, ◌*◌, ◌≤◌, length, drop};
ghost use Rattle.std.proofs.Math.Seq.{paste};
ghost use Rattle.words.specs.Words.{moved};

// m words from src on go to dst, as they were; none move where either run of words leaves the table.
pub fn shift(t: &mut [u64], src: usize, dst: usize, m: usize)
    ensures { t.new ≡ moved src dst m t.old }
{
    let n = t.len();
    if m <= n {
        let room = n - m;
        if (src <= room) & (dst <= room) {
            if dst <= src {
                shift_down(t, src, dst, m);
            } else {
                shift_up(t, src, dst, m);
            }
        }
    }
}

// Towards the front: the lowest words first, four a turn, so that none is overwritten before it is read.
fn shift_down(t: &mut [u64], src: usize, dst: usize, m: usize)
    requires { (dst ≤ src) × (src + m ≤ length t.old) }
    ensures { t.new ≡ paste t.old dst (drop src t.old) m }
{
    let fours = m / 4;
    down_by_fours(t, src, dst, fours);
    let done = 4 * fours;
    down_by_ones(t, src + done, dst + done, m - done);
}

// Towards the back: the highest words first, four a turn but for what is left over.
fn shift_up(t: &mut [u64], src: usize, dst: usize, m: usize)
    requires { (src ≤ dst) × (dst + m ≤ length t.old) }
    ensures { t.new ≡ paste t.old dst (drop src t.old) m }
{
    let fours = m / 4;
    let last = 4 * fours;
    up_by_ones(t, src + last, dst + last, m - last);
    up_by_fours(t, src, dst, fours);
}

fn down_by_ones(t: &mut [u64], src: usize, dst: usize, m: usize)
    requires { (dst ≤ src) × (src + m ≤ length t.old) }
    ensures { t.new ≡ paste t.old dst (drop src t.old) m }
{
    let mut j = 0;
    while j < m {
        t[dst + j] = t[src + j];
        j += 1;
    }
}

fn up_by_ones(t: &mut [u64], src: usize, dst: usize, m: usize)
    requires { (src ≤ dst) × (dst + m ≤ length t.old) }
    ensures { t.new ≡ paste t.old dst (drop src t.old) m }
{
    let mut j = m;
    while 0 < j {
        j -= 1;
        t[dst + j] = t[src + j];
    }
}

// Each turn reads its four words before it writes one.
fn down_by_fours(t: &mut [u64], src: usize, dst: usize, turns: usize)
    requires { (dst ≤ src) × (src + 4 * turns ≤ length t.old) }
    ensures { t.new ≡ paste t.old dst (drop src t.old) (4 * turns) }
{
    let mut j = 0;
    while j < turns {
        let s = src + 4 * j;
        let a = t[s];
        let b = t[s + 1];
        let c = t[s + 2];
        let e = t[s + 3];
        let d = dst + 4 * j;
        t[d] = a;
        t[d + 1] = b;
        t[d + 2] = c;
        t[d + 3] = e;
        j += 1;
    }
}

fn up_by_fours(t: &mut [u64], src: usize, dst: usize, turns: usize)
    requires { (src ≤ dst) × (dst + 4 * turns ≤ length t.old) }
    ensures { t.new ≡ paste t.old dst (drop src t.old) (4 * turns) }
{
    let mut j = turns;
    while 0 < j {
        j -= 1;
        let s = src + 4 * j;
        let a = t[s];
        let b = t[s + 1];
        let c = t[s + 2];
        let e = t[s + 3];
        let d = dst + 4 * j;
        t[d] = a;
        t[d + 1] = b;
        t[d + 2] = c;
        t[d + 3] = e;
    }
}
