// A block lent: cut off its region, entered in the book under the next serial, and threaded by its place.
ghost use Rattle.std.specs.Prelude.{◌≡◌, [], ◌+◌, ◌≤◌, ◌<◌, length, get_or};
ghost use Rattle.counter.specs.Limits.{spent};
ghost use Rattle.store_rules.specs.Loans.{given_at};
ghost use Rattle.freelist_rules.specs.Records.{region};
ghost use Rattle.freelist_rules.specs.Place.{lent_loan};
ghost use Rattle.freelist_rules.specs.Tables.{tables};
ghost use Rattle.freelist_place.specs.Lent.{lent_from, lent_tables, taken};
ghost use Rattle.freelist_place.specs.Ready.{Lends};

use counter::FreeListSettings;
use freelist_rules::{Gap, WHOLE_AT};
use slabs::{Slab, Taken};
use store_rules::{GIVEN_AT, Loan, Region};

// The loan that the region gives from `start` on.
fn loan_of(start: u64, loans: &[u64], g: Gap) -> Loan
    requires { (given_at < length loans.now) × (get_or loans.now given_at 0 < spent) × (start ≤ g.end) }
    ensures { result ≡ lent_loan (get_or loans.now given_at 0 + 1) (region g.chunk start g.end) }
{
    let serial = loans[GIVEN_AT] + 1;
    Loan {
        serial: serial,
        chunk: g.chunk,
        offset: start,
        size: g.end - start,
    }
}

// Region i serves an ask from `start` on, and the loan takes its place in the book: `place`, after which so many places are used
// and `vacant` is the next one vacant. Numbers, not the struct that a plan holds them in: that would be laid out in memory anew.
pub fn lend(
    s: FreeListSettings,
    i: usize,
    start: u64,
    place: u64,
    places: u64,
    vacant: u64,
    loans: &mut [u64],
    chunks: &[u64],
    index: &mut [u64],
    regions: &mut [u64],
) -> Loan
    requires { Lends s i start place loans.old chunks.now index.old regions.old }
    ensures value { result ≡ lent_from s start (tables [] loans.old chunks.now index.old regions.old) i }
    ensures regions_after { tables [] loans.new chunks.now index.new regions.new ≡ lent_tables s start (taken place places vacant) (tables [] loans.old chunks.now index.old regions.old) i }
{
    let own = s.store;
    let g = freelist_regions::gap_at(regions, i);
    let l = loan_of(start, loans, g);
    let free = Region {
        chunk: g.chunk,
        start: g.start,
        end: g.end,
    };
    let left = crate::wholes::without(chunks, regions[WHOLE_AT], free);
    let r = slabs::record_of(place);
    crate::counted::cut(s, regions, i, start, r, left);
    let loan = Taken {
        place: place,
        slab: Slab {
            places: places,
            vacant: vacant,
        },
    };
    book::enter_at(loans, index, own.loans, loan, l);
    crate::threads::thread(index, own.loans, g.front, r);
    l
}
