// The loans: each of them, the places that are vacant, and the chains that lead to each by its serial.
ghost use Rattle.std.specs.Prelude.{◌≡◌, true, if◌then◌else◌, Some, None};
ghost use Rattle.freelist_rules.specs.Seen.{seen};
ghost use Rattle.freelist_rules.specs.Tables.{lengths_ok};
ghost use Rattle.freelist_test.specs.Parts.{lent_ok, live_count};

use crate::blocks::look_over;
use freelist_rules::FreeListView;
use store_rules::{GIVEN_AT, PLACES_AT};

// How many places are on loan, where the loans are right. No place is looked at where they are said to be more than the limit.
// What the first look counts serves all that follow.
pub fn are_lent(t: &FreeListView<'_>) -> Option<u64>
    requires { lengths_ok t.now.settings (seen t.now) ≡ true }
    ensures { result ≡ if lent_ok t.now.settings t.now.loans.now t.now.index.now then Some (live_count t.now.loans.now) else None }
{
    let store = t.settings.store;
    let most = store.loans;
    let places = words::word(t.loans, PLACES_AT);
    if (most as u64) < places {
        return None;
    }
    let given = words::word(t.loans, GIVEN_AT);
    let vacant = look_over(t.settings, given, t.loans, places as usize)?;
    if book::is_led(t.loans, t.index, most, places, given, vacant) {
        Some(places - vacant)
    } else {
        None
    }
}
