// The marks, and the counts of chunks and regions.
ghost use Rattle.std.specs.Prelude.{◌≡◌};
ghost use Rattle.freelist_rules.specs.Seen.{seen};
ghost use Rattle.freelist_rules.specs.Tables.{marks, signed_ok};
ghost use Rattle.freelist_test.specs.Parts.{head_ok};

use freelist_rules::{
    CHUNKS_AT, CHUNKS_MARK, FreeListView, HEAD_MARK, INDEX_MARK, LOANS_MARK, ROOM_MARK,
};
use words::MARK_AT;

// Whether each table begins with its mark.
fn is_signed(t: &FreeListView<'_>) -> bool
    ensures { result ≡ signed_ok marks (seen t.now) }
{
    (words::word(t.head, MARK_AT) == HEAD_MARK)
        & (words::word(t.loans, MARK_AT) == LOANS_MARK)
        & (words::word(t.chunks, MARK_AT) == CHUNKS_MARK)
        & (words::word(t.index, MARK_AT) == INDEX_MARK)
        & (words::word(t.regions, MARK_AT) == ROOM_MARK)
}

// Whether the tables have their marks, and chunks and n regions are within their limits.
pub fn is_head(t: &FreeListView<'_>, n: u64) -> bool
    ensures { result ≡ head_ok t.now.settings (seen t.now) n }
{
    let store = t.settings.store;
    let most = store.loans + store.chunks;
    let signed = is_signed(t);
    let k = words::word(t.chunks, CHUNKS_AT);
    signed & (k <= store.chunks as u64) & (n <= most as u64)
}
