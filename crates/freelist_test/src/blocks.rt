// Each loan.
ghost use Rattle.std.specs.Prelude.{◌≡◌, cond, if◌then◌else◌, Some, None, ◌+◌, ◌*◌, ◌≤◌, eqb, length};
ghost use Rattle.counter.specs.InTable.{FreeListIn};
ghost use Rattle.counter.specs.Limits.{loans_most};
ghost use Rattle.slabs.specs.Slab.{vacant_at};
ghost use Rattle.slabs.specs.Test.{vacancies};
ghost use Rattle.store_rules.specs.Loans.{loan_words, size_at, loans_of};
ghost use Rattle.freelist_rules.specs.Walk.{all_ok, loan_ok};
ghost use Rattle.freelist_test.specs.Parts.{counted};

use counter::FreeListSettings;
use store_rules::Loan;

// Whether a loan has a serial that was given, and lies in whole atom units.
fn is_loan(s: FreeListSettings, given: u64, l: Loan) -> bool
    requires { FreeListIn s }
    ensures { result ≡ loan_ok s (counted given 0 0) l }
{
    let store = s.store;
    let atom = store.atom;
    (0 < l.serial) & ((l.serial <= given) & ((l.offset & atom == 0) & (l.size & atom == 0)))
}

// 1 for a vacant place, by the size in its record.
fn vacancy(size: u64) -> u64
    ensures { result ≡ cond (eqb size 0) 1 0 }
{
    u64::from(size == 0)
}

// How many of the first n places are vacant, where each loan is right. Looks them over once, and to the end, so that no turn
// branches: what is tested is sound nearly always.
pub fn look_over(s: FreeListSettings, given: u64, loans: &[u64], n: usize) -> Option<u64>
    requires { FreeListIn s × (n ≤ loans_most) × (loan_words + loan_words * n ≤ length loans.now) }
    ensures { result ≡ if all_ok (loan_ok s (counted given 0 0)) (loans_of n loans.now) then Some (vacancies (vacant_at loans.now size_at loan_words) n) else None }
{
    let mut ok = true;
    let mut vacant = 0;
    for p in 0..n {
        let l = book::loan_in(loans, p);
        ok = ok & ((l.size == 0) | is_loan(s, given, l));
        vacant += vacancy(l.size);
    }
    if ok { Some(vacant) } else { None }
}
