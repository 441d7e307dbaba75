// What a return comes to by a store's book of loans: test 7, the same of both engines.
#![tactic(auto)]

ghost use Rattle.std.specs.Prelude.{◌≡◌};
ghost use Rattle.book_rules.specs.Ready.{Reads};
ghost use Rattle.book_rules.specs.Returns.{decide_return};
ghost use Rattle.returning.specs.Backs.{back_of};

use counter::{Block, Refusal};
use slabs::NOWHERE;
use store_rules::Loan;

// The word of the index that leads to the block's loan. A loan is the block's by serial, chunk, offset and size, so that a block made
// up or returned before is none. The book has room for n loans; `places` of its places were ever used.
pub fn decide(
    b: Block,
    n: usize,
    places: u64,
    loans: &[u64],
    index: &[u64],
) -> Result<usize, Refusal>
    requires { Reads n places loans.now index.now }
    ensures { back_of result ≡ decide_return loans.now index.now n places b }
{
    let at = book::word_to(loans, index, n, places, b.serial);
    if at == NOWHERE {
        return Err(Refusal::Stale);
    }
    let p = slabs::place_of(index[at as usize]);
    let l = book::loan_in(loans, p as usize);
    if l == Loan::from(b) {
        return Ok(at as usize);
    }
    Err(Refusal::Stale)
}
