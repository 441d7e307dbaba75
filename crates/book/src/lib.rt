// The book of a store's loans: their records in a slab, and an index by which a loan is found by its serial.
#![tactic(auto)]

mod chains;
mod kept;

ghost use Rattle.std.specs.Prelude.{◌≡◌, ◌%◌, ◌<◌, ◌≤◌, length, slice_index, slice_set};
ghost use Rattle.counter.specs.Limits.{loans_most};
ghost use Rattle.words.specs.Words.{cell_of};
ghost use Rattle.words.specs.Rows.{row, written};
ghost use Rattle.slabs.specs.Slab.{record_of};
ghost use Rattle.store_rules.specs.Loans.{places_at, loan_words, serial_at, size_at, loan_row};
ghost use Rattle.book_rules.specs.Ready.{Reads, Opens, Strikes};
ghost use Rattle.book_rules.specs.Book.{entry_words, vacated_at, vacant_after_at, index_words, first_of, next_of, taken_of, counted, word_to, struck, struck_index};

pub use kept::{are_kept, is_led};
use slabs::{NOWHERE, Slab, Taken};
use store_rules::{CHUNK_AT, GIVEN_AT, LOAN_WORDS, Loan, OFFSET_AT, PLACES_AT, SERIAL_AT, SIZE_AT};

// Where the words of the index stand; specs/Book has the same names.
pub const ENTRY_WORDS: usize = 3;

pub const VACATED_AT: usize = 2;

const FIRST_AT: usize = 3;

const NEXT_AT: usize = 4;

pub const VACANT_AFTER_AT: usize = 5;

// The place that the next loan takes, and the slab from then on.
pub fn next_place(places: u64, index: &[u64]) -> Taken
    ensures { result ≡ taken_of places index.now }
{
    let s = Slab {
        places,
        vacant: slabs::led_to(index, VACATED_AT),
    };
    s.insert(index, VACANT_AFTER_AT, ENTRY_WORDS)
}

// The same of an index that has an entry for each of these places: no test of a bound.
pub fn next_place_in(places: u64, index: &[u64]) -> Taken
    requires { index_words places ≤ length index.now }
    ensures { result ≡ taken_of places index.now }
{
    let last = slabs::place_of(index[VACATED_AT]);
    if last < places {
        let after = VACANT_AFTER_AT + ENTRY_WORDS * last as usize;
        let next = slabs::place_of(index[after]);
        return Taken {
            place: last,
            slab: Slab {
                places,
                vacant: next,
            },
        };
    }
    let more = places.wrapping_add(1);
    Taken {
        place: places,
        slab: Slab {
            places: more,
            vacant: last,
        },
    }
}

// The loan at a place. One test serves for its four words.
pub fn loan_at(loans: &[u64], p: usize) -> Loan
    ensures { result ≡ row loan_row p loans.now }
{
    if p < loans.len() {
        if LOAN_WORDS * p + SIZE_AT < loans.len() {
            return loan_in(loans, p);
        }
    }
    loan_by_words(loans, p)
}

// The loan at a place that the table has.
pub fn loan_in(loans: &[u64], p: usize) -> Loan
    requires { cell_of size_at loan_words p < length loans.now }
    ensures { result ≡ row loan_row p loans.now }
{
    let at = LOAN_WORDS * p;
    Loan {
        serial: loans[at + SERIAL_AT],
        chunk: loans[at + CHUNK_AT],
        offset: loans[at + OFFSET_AT],
        size: loans[at + SIZE_AT],
    }
}

// The loan at any place, each word by itself.
fn loan_by_words(loans: &[u64], p: usize) -> Loan
    ensures { result ≡ row loan_row p loans.now }
{
    Loan {
        serial: words::cell(loans, SERIAL_AT, LOAN_WORDS, p),
        chunk: words::cell(loans, CHUNK_AT, LOAN_WORDS, p),
        offset: words::cell(loans, OFFSET_AT, LOAN_WORDS, p),
        size: words::cell(loans, SIZE_AT, LOAN_WORDS, p),
    }
}

// A loan written at its place.
fn write_loan(loans: &mut [u64], p: usize, l: Loan)
    requires { cell_of size_at loan_words p < length loans.old }
    ensures { loans.new ≡ written loan_row p l loans.old }
{
    let at = LOAN_WORDS * p;
    loans[at + SERIAL_AT] = l.serial;
    loans[at + CHUNK_AT] = l.chunk;
    loans[at + OFFSET_AT] = l.offset;
    loans[at + SIZE_AT] = l.size;
}

// So many serials are given, and so many places used.
fn count(loans: &mut [u64], given: u64, places: u64)
    requires { places_at < length loans.old }
    ensures { loans.new ≡ counted given places loans.old }
{
    loans[GIVEN_AT] = given;
    loans[PLACES_AT] = places;
}

// The loan takes the place that is told, its serial is the last one given, and it becomes the first of its chain.
pub fn enter_at(loans: &mut [u64], index: &mut [u64], n: usize, t: Taken, l: Loan)
    requires { Opens n t.place loans.old index.old }
    ensures loans_after { loans.new ≡ written loan_row t.place l (counted l.serial t.slab.places loans.old) }
    ensures index_after { index.new ≡ slice_set (slice_set (slice_set index.old vacated_at (record_of t.slab.vacant)) (next_of t.place) (slice_index index.old (first_of (l.serial % n)))) (first_of (l.serial % n)) (record_of t.place) }
{
    let s = t.slab;
    let i = rounding::remainder(l.serial, n as u64);
    let first = first_word(index, n, l.serial);
    count(loans, l.serial, s.places);
    write_loan(loans, t.place as usize, l);
    put_first(index, i as usize, t.place, first, s.vacant);
}

// The word that leads to the first of the chain that this serial comes into, as it stands in the index.
fn first_word(index: &[u64], n: usize, serial: u64) -> u64
    requires { (0 < n) × (n ≤ loans_most) × (index_words n ≤ length index.now) }
    ensures { result ≡ slice_index index.now (first_of (serial % n)) }
{
    let i = rounding::remainder(serial, n as u64);
    let at = FIRST_AT + ENTRY_WORDS * i as usize;
    index[at]
}

// The place p is the first of chain i from now on, and leads on by the word `first`, which led to the one that was.
fn put_first(index: &mut [u64], i: usize, p: u64, first: u64, vacated: u64)
    requires { (first_of i < length index.old) × (next_of p < length index.old) }
    ensures { index.new ≡ slice_set (slice_set (slice_set index.old vacated_at (record_of vacated)) (next_of p) first) (first_of i) (record_of p) }
{
    let next = NEXT_AT + ENTRY_WORDS * p as usize;
    let at = FIRST_AT + ENTRY_WORDS * i;
    index[VACATED_AT] = slabs::record_of(vacated);
    index[next] = first;
    index[at] = slabs::record_of(p);
}

// The word of the index that leads to the loan with this serial, or NOWHERE. At most `places` turns, so that links that lead round in
// a ring end too.
pub fn word_to(loans: &[u64], index: &[u64], n: usize, places: u64, serial: u64) -> u64
    requires { Reads n places loans.now index.now }
    ensures { result ≡ word_to loans.now index.now n places serial }
{
    let i = rounding::remainder(serial, n as u64);
    let mut at = FIRST_AT + ENTRY_WORDS * i as usize;
    for _ in 0..places {
        let p = slabs::place_of(index[at]);
        if places <= p {
            return NOWHERE;
        }
        if loans[SERIAL_AT + LOAN_WORDS * p as usize] == serial {
            return at as u64;
        }
        at = NEXT_AT + ENTRY_WORDS * p as usize;
    }
    NOWHERE
}

// The loan at p, which the word at `at` leads to, is struck out: its place is vacant.
pub fn strike(loans: &mut [u64], index: &mut [u64], at: usize, p: u64)
    requires { Strikes at p loans.old index.old }
    ensures loans_after { loans.new ≡ struck at index.old loans.old }
    ensures index_after { index.new ≡ struck_index at index.old }
{
    let onward = NEXT_AT + ENTRY_WORDS * p as usize;
    let next = index[onward];
    let vacated = index[VACATED_AT];
    vacate(loans, p as usize);
    pass_over(index, at, p, next, vacated);
}

// The record at p is that of a vacant place: size 0, and serial 0.
fn vacate(loans: &mut [u64], p: usize)
    requires { cell_of size_at loan_words p < length loans.old }
    ensures { loans.new ≡ slice_set (slice_set loans.old (cell_of size_at loan_words p) 0) (cell_of serial_at loan_words p) 0 }
{
    let size = SIZE_AT + LOAN_WORDS * p;
    let serial = SERIAL_AT + LOAN_WORDS * p;
    loans[size] = 0;
    loans[serial] = 0;
}

// The word at `at`, which leads to p, leads past it from now on, and p is the place vacated last.
fn pass_over(index: &mut [u64], at: usize, p: u64, next: u64, vacated: u64)
    requires { (at < length index.old) × (cell_of vacant_after_at entry_words p < length index.old) }
    ensures { index.new ≡ slice_set (slice_set (slice_set index.old at next) (cell_of vacant_after_at entry_words p) vacated) vacated_at (slice_index index.old at) }
{
    let after = VACANT_AFTER_AT + ENTRY_WORDS * p as usize;
    let lead = index[at];
    index[at] = next;
    index[after] = vacated;
    index[VACATED_AT] = lead;
}
