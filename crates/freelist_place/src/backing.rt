// A block taken back: struck out of the book and out of the thread by place, and its bytes put among the free regions.
ghost use Rattle.std.specs.Prelude.{◌≡◌, []};
ghost use Rattle.book_rules.specs.Book.{led_to};
ghost use Rattle.book_rules.specs.Ready.{Strikes};
ghost use Rattle.freelist_rules.specs.Tables.{tables};
ghost use Rattle.freelist_outcomes.specs.Return.{given_tables};
ghost use Rattle.freelist_place.specs.Ready.{Backs};

use counter::{Block, FreeListSettings};
use store_rules::Region;

// The block that the word at `at` of the index leads to.
pub fn take_back(
    s: FreeListSettings,
    b: Block,
    at: usize,
    loans: &mut [u64],
    chunks: &[u64],
    index: &mut [u64],
    regions: &mut [u64],
)
    requires backs { Backs s b at chunks.now index.old regions.old }
    requires strikes { Strikes at (led_to index.old at) loans.old index.old }
    ensures { tables [] loans.new chunks.now index.new regions.new ≡ given_tables s b at (tables [] loans.old chunks.now index.old regions.old) }
{
    let own = s.store;
    let free = Region {
        chunk: b.chunk,
        start: b.offset,
        end: b.offset + b.size,
    };
    let r = index[at];
    let front = crate::threads::before_of(index, own.loans, r);
    crate::counted::join(s, chunks, regions, free, r, front);
    book::strike(loans, index, at, slabs::place_of(r));
    crate::threads::unthread(index, own.loans, r);
}
