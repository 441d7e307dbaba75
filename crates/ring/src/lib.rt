// Places linked into a ring in a lent table. The word `head` leads to the head, 0 where the ring is empty; a place's links
// stand `next_at` and `prev_at` words into the table, and `step` words on for each place before it.
#![tactic(auto)]

ghost use Rattle.std.specs.Prelude.{◌≡◌, ◌≤◌, ◌<◌, length, get_or, set};
ghost use Rattle.words.specs.Words.{widest, at_most, cell_of};
ghost use Rattle.slabs.specs.Slab.{place_of, record_of, link_at};
ghost use Rattle.ring_rules.specs.Ring.{unlinked, linked};
ghost use Rattle.ring_rules.specs.Test.{ring_length};
ghost use Rattle.ring.specs.Stands.{Leaves, Joins};

use slabs::NOWHERE;

// The place p is taken out; the head is p's next from now on, whichever place it was.
pub fn unlink(t: &mut [u64], head: u64, next_at: u64, prev_at: u64, step: u64, p: u64)
    requires { Leaves head next_at prev_at step p t.old }
    ensures { t.new ≡ unlinked head next_at prev_at step p t.old }
{
    let n = link_in(t, next_at, step, p);
    let q = link_in(t, prev_at, step, p);
    if q == p {
        put_head(t, head, NOWHERE);
    } else {
        put_link_in(t, next_at, step, q, n);
        put_link_in(t, prev_at, step, n, q);
        put_head(t, head, n);
    }
}

// The place that a link of p leads to.
fn link_in(t: &[u64], at: u64, step: u64, p: u64) -> u64
    requires { cell_of at step p < length t.now }
    ensures { result ≡ link_at t.now at step p }
{
    let i = at as usize + step as usize * p as usize;
    slabs::place_of(t[i])
}

// It leads to q from now on.
fn put_link_in(t: &mut [u64], at: u64, step: u64, p: u64, q: u64)
    requires { cell_of at step p < length t.old }
    ensures { t.new ≡ set t.old (cell_of at step p) (record_of q) }
{
    let i = at as usize + step as usize * p as usize;
    t[i] = slabs::record_of(q);
}

// The head is p from now on, whichever place it was; NOWHERE leaves the ring without one.
fn put_head(t: &mut [u64], head: u64, p: u64)
    requires { head < length t.old }
    ensures { t.new ≡ set t.old head (record_of p) }
{
    let i = head as usize;
    t[i] = slabs::record_of(p);
}

// The head's place, or NOWHERE.
fn head_in(t: &[u64], head: u64) -> u64
    requires { head < length t.now }
    ensures { result ≡ place_of (get_or t.now head 0) }
{
    let i = head as usize;
    slabs::place_of(t[i])
}

// The place p joins before the head, or as the head of a ring that was empty.
pub fn link(t: &mut [u64], head: u64, next_at: u64, prev_at: u64, step: u64, p: u64)
    requires { Joins head next_at prev_at step p t.old }
    ensures { t.new ≡ linked head next_at prev_at step p t.old }
{
    let h = head_in(t, head);
    if h == NOWHERE {
        put_links(t, next_at, prev_at, step, p, p, p);
        put_head(t, head, p);
    } else {
        let q = link_in(t, prev_at, step, h);
        put_link_in(t, prev_at, step, h, p);
        put_link_in(t, next_at, step, q, p);
        put_links(t, next_at, prev_at, step, p, h, q);
    }
}

// The links of p: the place after it and the one before it.
fn put_links(t: &mut [u64], next_at: u64, prev_at: u64, step: u64, p: u64, next: u64, prev: u64)
    requires { (cell_of next_at step p < length t.old) × (cell_of prev_at step p < length t.old) }
    ensures { t.new ≡ set (set t.old (cell_of next_at step p) (record_of next)) (cell_of prev_at step p) (record_of prev) }
{
    put_link_in(t, next_at, step, p, next);
    put_link_in(t, prev_at, step, p, prev);
}

// How many places stand in the ring, all of them below `places`: NOWHERE where it is torn. Linear in the places.
pub fn ring_length(t: &[u64], head: u64, next_at: u64, prev_at: u64, step: u64, places: u64) -> u64
    requires { (0 < step) × (step ≤ widest) × (next_at ≤ at_most) × (prev_at ≤ at_most) }
    ensures { result ≡ ring_length head next_at prev_at step places t.now }
{
    let h = slabs::led_to(t, head as usize);
    if h == NOWHERE {
        return 0;
    }
    if places <= h {
        return NOWHERE;
    }
    let mut p = h;
    for met in 0..places {
        let n = slabs::link(t, next_at as usize, step as usize, p);
        if places <= n {
            return NOWHERE;
        }
        if slabs::link(t, prev_at as usize, step as usize, n) != p {
            return NOWHERE;
        }
        if n == h {
            return met + 1;
        }
        p = n;
    }
    NOWHERE
}
