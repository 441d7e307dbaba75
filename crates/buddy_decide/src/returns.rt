// What a return comes to, by test 7.
ghost use Rattle.std.specs.Prelude.{◌≡◌, [], get_or};
ghost use Rattle.returning.specs.Backs.{back_of};
ghost use Rattle.store_rules.specs.Loans.{places_at};
ghost use Rattle.book_rules.specs.Ready.{Reads};
ghost use Rattle.buddy_rules.specs.Tables.{tables};
ghost use Rattle.buddy_outcomes.specs.Return.{decide_return};

use counter::{Block, BuddySettings, Refusal};
use store_rules::PLACES_AT;

pub fn decide_return(
    s: BuddySettings,
    b: Block,
    loans: &[u64],
    index: &[u64],
) -> Result<usize, Refusal>
    requires { Reads s.store.loans (get_or loans.now places_at 0) loans.now index.now }
    ensures { back_of result ≡ decide_return s b (tables [] loans.now [] index.now []) }
{
    returning::decide(b, s.store.loans, loans[PLACES_AT], loans, index)
}
