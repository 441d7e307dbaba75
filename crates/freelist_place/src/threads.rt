// The loans threaded by place: behind the index's entries a column of the records behind each, and one of those in front.
ghost use Rattle.std.specs.Prelude.{◌≡◌, ◌≤◌, length};
ghost use Rattle.counter.specs.Limits.{loans_most};
ghost use Rattle.freelist_rules.specs.Threads.{thread_words, after_in, before_in, threaded, unthreaded};

use book::ENTRY_WORDS;

// The record in front of record r. freelist_walk has the same of its `usize` records: shared, it would bring the index into
// freelist_regions, which knows none.
pub fn before_of(index: &[u64], n: usize, r: u64) -> u64
    requires { (n ≤ loans_most) × (length index.now ≡ thread_words n) × (r ≤ n) }
    ensures { result ≡ before_in n index.now r }
{
    let before = ENTRY_WORDS + ENTRY_WORDS * n + (n + 1);
    index[before + r as usize]
}

// Record r stands behind record u from now on, in front of the one that stood there.
pub fn thread(index: &mut [u64], n: usize, u: u64, r: u64)
    requires { (n ≤ loans_most) × (length index.old ≡ thread_words n) × (u ≤ n) × (r ≤ n) × (after_in n index.old u ≤ n) }
    ensures { index.new ≡ threaded n u r (after_in n index.old u) index.old }
{
    let after = ENTRY_WORDS + ENTRY_WORDS * n;
    let before = after + (n + 1);
    let w = index[after + u as usize];
    index[after + r as usize] = w;
    index[before + r as usize] = u;
    index[after + u as usize] = r;
    index[before + w as usize] = r;
}

// Record r is gone from between its two neighbours.
pub fn unthread(index: &mut [u64], n: usize, r: u64)
    requires { (n ≤ loans_most) × (length index.old ≡ thread_words n) × (r ≤ n) × (after_in n index.old r ≤ n) × (before_in n index.old r ≤ n) }
    ensures { index.new ≡ unthreaded n r index.old }
{
    let after = ENTRY_WORDS + ENTRY_WORDS * n;
    let before = after + (n + 1);
    let w = index[after + r as usize];
    let u = index[before + r as usize];
    index[after + u as usize] = w;
    index[before + w as usize] = u;
}
