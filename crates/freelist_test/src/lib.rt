// The test of a free-list store's tables: its marks and counts, its loans and their book, its chunks, and that loans and free
// regions fill the chunks. It reads each table as it stands, so that no word in one can make it fail.
#![tactic(auto)]

mod blocks;
mod chunks;
mod heads;
mod loans;

ghost use Rattle.std.specs.Prelude.{◌≡◌, true};
ghost use Rattle.freelist_rules.specs.Seen.{seen};
ghost use Rattle.freelist_rules.specs.Tables.{lengths_ok, sound_ok};

use freelist_rules::{CHUNK_SIZE_AT, CHUNKS_AT, FreeListView, MADE_AT};
use freelist_walk::Ground;
use store_rules::PLACES_AT;

// Whether the tables hold a sound store. The tests that read least come first, and each relies on those before it.
pub fn is_sound(t: &FreeListView<'_>) -> bool
    requires { lengths_ok t.now.settings (seen t.now) ≡ true }
    ensures { result ≡ sound_ok t.now.settings (seen t.now) }
{
    let n = freelist_regions::region_count(t.regions);
    if !heads::is_head(t, n as u64) {
        return false;
    }
    let Some(live) = loans::are_lent(t) else {
        return false;
    };
    let k = words::word(t.chunks, CHUNKS_AT) as usize;
    let size = words::word(t.head, CHUNK_SIZE_AT);
    let made = words::word(t.chunks, MADE_AT);
    if !chunks::are_chunks(t.settings, made, size, t.chunks, k) {
        return false;
    }
    let own = t.settings.store;
    let ground = Ground {
        chunks: t.chunks,
        held: k,
        loans: t.loans,
        places: words::word(t.loans, PLACES_AT) as usize,
        index: t.index,
        most: own.loans,
        regions: t.regions,
        count: n,
    };
    freelist_walk::walk(&ground, live as usize)
}
