// The test of a book's chains: each is followed once, so it is linear in the places ever used.
ghost use Rattle.std.specs.Prelude.{◌≡◌, ◌+◌, ◌*◌, ◌<◌, ◌≤◌, length};
ghost use Rattle.words.specs.Words.{cell_of};
ghost use Rattle.slabs.specs.Slab.{vacant_at};
ghost use Rattle.slabs.specs.Test.{vacancies};
ghost use Rattle.store_rules.specs.Loans.{loan_words, serial_at, size_at};
ghost use Rattle.book_rules.specs.Book.{first_of, next_of, serial_of, first_in, next_in};
ghost use Rattle.book_rules.specs.Chains.{link_ok, left_after, left_of, chains_ok};
ghost use Rattle.book_rules.specs.Ready.{Reads};

use crate::{ENTRY_WORDS, FIRST_AT, NEXT_AT};
use slabs::NOWHERE;
use store_rules::{LOAN_WORDS, SERIAL_AT, SIZE_AT};

// Whether every chain has the loans of its serials, and all of them, the newest first. So many of the places are vacant.
pub fn is_chained(
    loans: &[u64],
    index: &[u64],
    n: usize,
    places: u64,
    given: u64,
    vacant: u64,
) -> bool
    requires { Reads n places loans.now index.now × (vacant ≡ vacancies (vacant_at loans.now size_at loan_words) places) }
    ensures { result ≡ chains_ok (vacant_at loans.now size_at loan_words) (first_in index.now) (next_in index.now) (serial_of loans.now) n places given }
{
    left_of(loans, index, n, places, given, places - vacant) == 0
}

// How many of k loans are left when every chain has been followed, or NOWHERE.
fn left_of(loans: &[u64], index: &[u64], n: usize, places: u64, given: u64, k: u64) -> u64
    requires { Reads n places loans.now index.now }
    ensures { result ≡ left_of (vacant_at loans.now size_at loan_words) (first_in index.now) (next_in index.now) (serial_of loans.now) n places given k n }
{
    let mut left = k;
    for i in 0..n {
        if left != NOWHERE {
            let first = first_of(index, i);
            left = left_after(loans, index, n, places, i as u64, given, first, left);
        }
    }
    left
}

// The first place of chain i.
fn first_of(index: &[u64], i: usize) -> u64
    requires { first_of i < length index.now }
    ensures { result ≡ first_in index.now i }
{
    slabs::place_of(index[FIRST_AT + ENTRY_WORDS * i])
}

// The place after p in its chain.
fn next_of(index: &[u64], p: usize) -> u64
    requires { next_of p < length index.now }
    ensures { result ≡ next_in index.now p }
{
    slabs::place_of(index[NEXT_AT + ENTRY_WORDS * p])
}

fn serial_of(loans: &[u64], p: usize) -> u64
    requires { cell_of serial_at loan_words p < length loans.now }
    ensures { result ≡ serial_of loans.now p }
{
    loans[SERIAL_AT + LOAN_WORDS * p]
}

// How many of k loans are left when chain i has been followed from h on, or NOWHERE where it is torn.
fn left_after(
    loans: &[u64],
    index: &[u64],
    n: usize,
    places: u64,
    i: u64,
    given: u64,
    h: u64,
    k: u64,
) -> u64
    requires { Reads n places loans.now index.now }
    ensures { result ≡ left_after (vacant_at loans.now size_at loan_words) (first_in index.now) (next_in index.now) (serial_of loans.now) n places i given h k }
{
    let mut p = h;
    let mut most = given;
    let mut left = k;
    // no `for`: most chains are empty, and by a range each took two thirds more
    while p != NOWHERE {
        if left == 0 {
            return NOWHERE;
        }
        if is_link(loans, n as u64, places, i, most, p) {
            most = serial_of(loans, p as usize) - 1;
            p = next_of(index, p as usize);
            left -= 1;
        } else {
            return NOWHERE;
        }
    }
    left
}

// Whether p is a loan of chain i, with a serial from 1 to most. No link is asked, so that any may stand in the contract.
fn is_link(loans: &[u64], n: u64, places: u64, i: u64, most: u64, p: u64) -> bool
    requires { (0 < n) × (loan_words + loan_words * places ≤ length loans.now) }
    ensures { result ≡ link_ok (vacant_at loans.now size_at loan_words) (λ i. i) (λ p. p) (serial_of loans.now) n places i most p }
{
    if places <= p {
        return false;
    }
    if loans[SIZE_AT + LOAN_WORDS * p as usize] == 0 {
        return false;
    }
    let s = serial_of(loans, p as usize);
    (0 < s) & ((s <= most) & (rounding::remainder(s, n) == i))
}
