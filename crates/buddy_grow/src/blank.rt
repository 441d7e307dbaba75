// The words of a store with nothing in it.
ghost use Rattle.std.specs.Prelude.{◌≡◌, ◌*◌, ◌+◌, length};
ghost use Rattle.words.specs.Words.{blank};
ghost use Rattle.counter.specs.InTable.{BuddyIn};
ghost use Rattle.store_rules.specs.Loans.{loan_words};
ghost use Rattle.buddy_rules.specs.Tables.{tables, Lengths, marks, head_words, chunk_words, book_words};
ghost use Rattle.buddy_outcomes.specs.SetUp.{fresh_head, fresh_tables};

use buddy_rules::{CHUNKS_MARK, HEAD_MARK, INDEX_MARK, LEVELS_AT, LOANS_MARK, ROOM_MARK};
use counter::BuddySettings;
use words::MARK_AT;

// The mark, and the initial levels.
fn fresh_head(s: BuddySettings, head: &mut [u64])
    requires { BuddyIn s × (length head.old ≡ head_words) }
    ensures { head.new ≡ fresh_head s }
{
    let levels = rounding::level(s.initial, s.minimal);
    words::put(head, MARK_AT, HEAD_MARK);
    words::put(head, LEVELS_AT, levels as u64);
}

// Behind the marks no loan, no chunk, no link from loan to loan, and no node.
fn fresh_rows(s: BuddySettings, loans: &mut [u64], chunks: &mut [u64], index: &mut [u64])
    requires { (length loans.old ≡ loan_words + loan_words * s.store.loans) × (length chunks.old ≡ chunk_words + chunk_words * s.store.chunks) × (length index.old ≡ book_words s) }
    ensures loans_after { loans.new ≡ blank (loan_words + loan_words * s.store.loans) marks.loans 0 }
    ensures chunks_after { chunks.new ≡ blank (chunk_words + chunk_words * s.store.chunks) marks.chunks 0 }
    ensures index_after { index.new ≡ blank (book_words s) marks.index 0 }
{
    words::put_blank(loans, LOANS_MARK, 0);
    words::put_blank(chunks, CHUNKS_MARK, 0);
    words::put_blank(index, INDEX_MARK, 0);
}

// Every word of every table, so that nothing of what was lent is left. A level of which all words are 0 is an empty one.
pub fn fresh(
    s: BuddySettings,
    head: &mut [u64],
    loans: &mut [u64],
    chunks: &mut [u64],
    index: &mut [u64],
    tree: &mut [u64],
)
    requires { BuddyIn s × Lengths s (tables head.old loans.old chunks.old index.old tree.old) }
    ensures { tables head.new loans.new chunks.new index.new tree.new ≡ fresh_tables s }
{
    fresh_head(s, head);
    fresh_rows(s, loans, chunks, index);
    words::put_blank(tree, ROOM_MARK, 0);
}
