// What a return comes to, once the gate is passed.
ghost use Rattle.std.specs.Prelude.{◌≡◌, [], get_or};
ghost use Rattle.store_rules.specs.Loans.{places_at};
ghost use Rattle.book_rules.specs.Ready.{Reads};
ghost use Rattle.freelist_rules.specs.Tables.{tables};
ghost use Rattle.freelist_outcomes.specs.Return.{decide_return};
ghost use Rattle.returning.specs.Backs.{back_of};

use counter::{Block, FreeListSettings, Refusal};
use store_rules::PLACES_AT;

// Test 7, by the store's book.
pub fn decide_return(
    s: FreeListSettings,
    b: Block,
    loans: &[u64],
    index: &[u64],
) -> Result<usize, Refusal>
    requires { Reads s.store.loans (get_or loans.now places_at 0) loans.now index.now }
    ensures { back_of result ≡ decide_return s b (tables [] loans.now [] index.now []) }
{
    returning::decide(b, s.store.loans, loans[PLACES_AT], loans, index)
}
