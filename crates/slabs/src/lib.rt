// A slab: places numbered from 0, of which the most recently vacated is taken first. Records stand in one lent table and
// the links of the vacant places in another (or in other words of the same), each at a width of its own.
#![tactic(auto)]

ghost use Rattle.std.specs.Prelude.{◌≡◌, ℕ, ◌-◌, ◌<◌, ◌≤◌, true, SomeIff, IfSome, length, slice_index, slice_set};
ghost use Rattle.words.specs.Words.{widest, at_most, cell_of};
ghost use Rattle.slabs.specs.Slab.{place_of, record_of, inserted, removed, removed_links, vacant_at, link_at};
ghost use Rattle.slabs.specs.Test.{vacancies, leads, parted_ok, off_chain};

// The end of a chain.
pub const NOWHERE: u64 = 0xffff_ffff_ffff_ffff;

// How many places were ever used, and the one vacated last, or NOWHERE.
#[derive(Clone, Copy)]
pub struct Slab {
    pub places: u64,
    pub vacant: u64,
}

#[derive(Clone, Copy)]
pub struct Taken {
    pub place: u64,
    pub slab: Slab,
}

impl Slab {
    // No place used yet.
    pub fn new() -> Slab
        ensures { result ≡ Rattle.slabs.specs.Slab.fresh }
    {
        Slab {
            places: 0,
            vacant: NOWHERE,
        }
    }

    // The place vacated last, or the next new one. `at` and `step` say where the links stand.
    pub fn insert(self, links: &[u64], at: usize, step: usize) -> Taken
        requires { (0 < step) × (step ≤ widest) × (at ≤ at_most) }
        ensures { result ≡ inserted self links.now at step }
    {
        let places = self.places;
        let vacant = self.vacant;
        if vacant < places {
            let next = link(links, at, step, vacant);
            Taken {
                place: vacant,
                slab: Slab {
                    places,
                    vacant: next,
                },
            }
        } else {
            let more = places.wrapping_add(1);
            Taken {
                place: places,
                slab: Slab {
                    places: more,
                    vacant,
                },
            }
        }
    }

    // The place p is vacant from now on, and the next to be taken.
    pub fn remove(self, links: &mut [u64], at: usize, step: usize, p: u64) -> Slab
        requires { (0 < step) × (step ≤ widest) × (at ≤ at_most) }
        ensures value { result ≡ removed self p }
        ensures links_after { links.new ≡ removed_links self links.old at step p }
    {
        put_link(links, at, step, p, self.vacant);
        Slab {
            places: self.places,
            vacant: p,
        }
    }
}

// The place that a link of a table leads to: the number of its record less 1, or NOWHERE.
pub fn place_of(w: u64) -> u64
    ensures { result ≡ place_of w }
{
    w.wrapping_sub(1)
}

// The link that leads to a place.
pub fn record_of(p: u64) -> u64
    ensures { result ≡ record_of p }
{
    p.wrapping_add(1)
}

// The place that the word at i leads to, NOWHERE past the end.
pub fn led_to(t: &[u64], i: usize) -> u64
    ensures { result ≡ place_of (slice_index t.now i) }
{
    place_of(words::word(t, i))
}

// The place that the link of p leads to, NOWHERE past the end. `at` and `step` say where the links stand.
pub fn link(t: &[u64], at: usize, step: usize, p: u64) -> u64
    requires { (0 < step) × (step ≤ widest) × (at ≤ at_most) }
    ensures { result ≡ link_at t.now at step p }
{
    place_of(words::cell(t, at, step, p as usize))
}

// The link of p leads to q from now on; nothing is written past the end.
pub fn put_link(t: &mut [u64], at: usize, step: usize, p: u64, q: u64)
    requires { (0 < step) × (step ≤ widest) × (at ≤ at_most) }
    ensures { t.new ≡ slice_set t.old (cell_of at step p) (record_of q) }
{
    words::put_cell(t, at, step, p as usize, record_of(q));
}

// How many of the first n places are vacant, by the marking word of each record.
pub fn count_vacant(records: &[u64], mark: usize, width: usize, n: u64) -> u64
    requires { (0 < width) × (width ≤ widest) × (mark ≤ at_most) }
    ensures { result ≡ vacancies (vacant_at records.now mark width) n }
{
    let mut count = 0;
    for p in 0..n {
        if words::cell(records, mark, width, p as usize) == 0 {
            count += 1;
        }
    }
    count
}

// Whether the chain from h on leads through k vacant places below n, and ends there.
pub fn chain_leads(
    records: &[u64],
    mark: usize,
    width: usize,
    links: &[u64],
    at: usize,
    step: usize,
    n: u64,
    h: u64,
    k: u64,
) -> bool
    requires { (0 < width) × (width ≤ widest) × (0 < step) × (step ≤ widest) × (mark ≤ at_most) × (at ≤ at_most) }
    ensures { result ≡ leads (vacant_at records.now mark width) (link_at links.now at step) n h k }
{
    let mut cur = h;
    for _ in 0..k {
        if n <= cur {
            return false;
        }
        if words::cell(records, mark, width, cur as usize) != 0 {
            return false;
        }
        cur = link(links, at, step, cur);
    }
    cur == NOWHERE
}

// How many places are used, where they and the vacant chain part the places, of which there are at most `most`.
pub fn test_parts(
    s: Slab,
    most: u64,
    records: &[u64],
    mark: usize,
    width: usize,
    links: &[u64],
    at: usize,
    step: usize,
) -> Option<u64>
    requires { (0 < width) × (width ≤ widest) × (0 < step) × (step ≤ widest) × (mark ≤ at_most) × (at ≤ at_most) }
    ensures used { SomeIff result (parted_ok (vacant_at records.now mark width) (link_at links.now at step) s most ≡ true) (s.places - vacancies (vacant_at records.now mark width) s.places) }
    ensures within { IfSome result (λ used. used ≤ s.places) }
{
    if most < s.places {
        return None;
    }
    let vacant = count_vacant(records, mark, width, s.places);
    let led = chain_leads(
        records, mark, width, links, at, step, s.places, s.vacant, vacant,
    );
    if led { Some(s.places - vacant) } else { None }
}

// How many of n places are over when the chain from h on, which leads through vacant places below n, has ended: NOWHERE where it leads
// elsewhere, or through more of them.
pub fn off_chain(
    records: &[u64],
    mark: usize,
    width: usize,
    links: &[u64],
    at: usize,
    step: usize,
    n: u64,
    h: u64,
) -> u64
    requires { ((p : ℕ) → p < n → cell_of mark width p < length records.now) × ((p : ℕ) → p < n → cell_of at step p < length links.now) }
    ensures { result ≡ off_chain (vacant_at records.now mark width) (link_at links.now at step) n h n }
{
    let mut cur = h;
    for led in 0..n {
        if cur == NOWHERE {
            return n - led;
        }
        if n <= cur {
            return NOWHERE;
        }
        let i = cur as usize;
        if records[mark + width * i] != 0 {
            return NOWHERE;
        }
        cur = place_of(links[at + step * i]);
    }
    if cur == NOWHERE { 0 } else { NOWHERE }
}
