// The test of a book.
ghost use Rattle.std.specs.Prelude.{◌≡◌, ◌+◌, ◌-◌, ◌*◌, ◌<◌, ◌≤◌, true, SomeIff, IfSome, length};
ghost use Rattle.counter.specs.Limits.{loans_most};
ghost use Rattle.slabs.specs.Slab.{vacant_at};
ghost use Rattle.slabs.specs.Test.{vacancies};
ghost use Rattle.store_rules.specs.Loans.{loan_words, size_at};
ghost use Rattle.book_rules.specs.Book.{index_words};
ghost use Rattle.book_rules.specs.Kept.{kept_ok};
ghost use Rattle.book_rules.specs.Ready.{Reads};

use crate::{ENTRY_WORDS, VACANT_AFTER_AT, VACATED_AT};
use store_rules::{LOAN_WORDS, SIZE_AT};

// How many loans a book has, where it is right: the places of the loans are parted into used and vacant ones, and the chains lead to
// each loan. The vacant ones are counted once.
pub fn are_kept(loans: &[u64], index: &[u64], n: usize, places: u64, given: u64) -> Option<u64>
    requires { (0 < n) × (n ≤ loans_most) × (length loans.now ≡ loan_words + loan_words * n) × (index_words n ≤ length index.now) }
    ensures live { SomeIff result (kept_ok loans.now index.now n places given ≡ true) (places - vacancies (vacant_at loans.now size_at loan_words) places) }
    ensures within { IfSome result (λ live. live ≤ places) }
{
    if (n as u64) < places {
        return None;
    }
    let vacant = count_vacant(loans, places);
    let led = is_led(loans, index, n, places, given, vacant);
    if led { Some(places - vacant) } else { None }
}

// The same of places that are not too many, of which so many are vacant.
pub fn is_led(loans: &[u64], index: &[u64], n: usize, places: u64, given: u64, vacant: u64) -> bool
    requires { Reads n places loans.now index.now × (vacant ≡ vacancies (vacant_at loans.now size_at loan_words) places) }
    ensures { result ≡ kept_ok loans.now index.now n places given }
{
    let last = slabs::led_to(index, VACATED_AT);
    let parted = slabs::chain_leads(
        loans,
        SIZE_AT,
        LOAN_WORDS,
        index,
        VACANT_AFTER_AT,
        ENTRY_WORDS,
        places,
        last,
        vacant,
    );
    if !parted {
        return false;
    }
    crate::chains::is_chained(loans, index, n, places, given, vacant)
}

// How many of the first n places are vacant, of a table that has them all.
fn count_vacant(loans: &[u64], n: u64) -> u64
    requires { loan_words + loan_words * n ≤ length loans.now }
    ensures { result ≡ vacancies (vacant_at loans.now size_at loan_words) n }
{
    let mut count = 0;
    for p in 0..n {
        if loans[SIZE_AT + LOAN_WORDS * p as usize] == 0 {
            count += 1;
        }
    }
    count
}
