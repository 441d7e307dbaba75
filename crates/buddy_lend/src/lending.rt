// A block lent from the ready side of a level's head pair.
ghost use Rattle.std.specs.Prelude.{◌≡◌, [], ◌≤◌, ◌^◌, get_or};
ghost use Rattle.counter.specs.InTable.{BuddyIn};
ghost use Rattle.counter.specs.Limits.{levels_most};
ghost use Rattle.store_rules.specs.Loans.{places_at};
ghost use Rattle.book_rules.specs.Book.{taken_of};
ghost use Rattle.buddy_rules.specs.Level.{ring_head};
ghost use Rattle.buddy_rules.specs.Levels.{base_of};
ghost use Rattle.buddy_levels.specs.Pairs.{ent_from};
ghost use Rattle.buddy_rules.specs.Tables.{tables, level_from};
ghost use Rattle.buddy_outcomes.specs.Ask.{loan_from, taken_tables};
ghost use Rattle.buddy_moves.specs.Ready.{Lends};

use buddy_levels::{Pair, Side};
use counter::BuddySettings;
use slabs::Taken;
use store_rules::{GIVEN_AT, Loan};

// Where the ready side of a pair begins.
fn side_from(s: BuddySettings, e: Pair, level: u64) -> u64
    requires { BuddyIn s × (level ≤ levels_most) × (e.off ≤ 2 ^ 62) }
    ensures { result ≡ base_of s.minimal (ent_from e) level }
{
    match buddy_levels::side_of(e.tag) {
        Side::Left => e.off,
        Side::Right => e.off + buddy_levels::node_bytes(s.minimal, level),
    }
}

// A block of this size and level, from the level `from`, where the head pair is ready; its loan takes this place of the book.
pub fn lend(
    s: BuddySettings,
    size: u64,
    level: usize,
    from: usize,
    pair: u64,
    loan: Taken,
    loans: &mut [u64],
    index: &mut [u64],
    tree: &mut [u64],
) -> Loan
    requires { Lends s size level from (tables [] loans.old [] index.old tree.old) × (pair ≡ ring_head (level_from s from) tree.old) × (loan ≡ taken_of (get_or loans.old places_at 0) index.old) }
    ensures value { result ≡ loan_from s size (tables [] loans.old [] [] tree.old) from }
    ensures tree_after { tables [] loans.new [] index.new tree.new ≡ taken_tables s size level (tables [] loans.old [] index.old tree.old) from }
{
    let base = buddy_levels::level_from(s.pairs, from);
    let e = buddy_levels::standing_pair(tree, base, pair);
    let offset = side_from(s, e, from as u64);
    let l = Loan {
        serial: loans[GIVEN_AT] + 1,
        chunk: e.chunk,
        offset,
        size,
    };
    let n = crate::taking::take_side(
        tree,
        s.pairs,
        level,
        from,
        pair,
        buddy_levels::side_of(e.tag),
        l.chunk,
        l.offset,
        loan.place,
    );
    let own = s.store;
    book::enter_at(loans, index, own.loans, loan, l);
    crate::booking::put_node(s, loan.place, n, index);
    l
}
