// A loan's node, beside it in the book.
ghost use Rattle.std.specs.Prelude.{◌≡◌, ◌+◌, ◌<◌, length, set};
ghost use Rattle.counter.specs.InTable.{BuddyIn};
ghost use Rattle.counter.specs.Limits.{loans_most};
ghost use Rattle.buddy_rules.specs.Tables.{nodes_from};

use counter::BuddySettings;

// The node of the loan at this place.
pub fn put_node(s: BuddySettings, place: u64, node: u64, index: &mut [u64])
    requires { BuddyIn s × (place < loans_most) × (nodes_from s + (place + 1) < length index.old) }
    ensures { index.new ≡ set index.old (nodes_from s + (place + 1)) node }
{
    let own = s.store;
    let at = buddy_levels::node_at(own.loans, place);
    index[at] = node;
}
