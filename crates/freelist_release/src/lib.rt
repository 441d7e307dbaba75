// Wholly free chunks of a free-list store released: out of its tables, and into the list that the caller reads.
#![tactic(auto)]

mod dropping;
mod keeps;
mod spares;

ghost use Rattle.std.specs.Prelude.{◌≡◌, [], length};
ghost use Rattle.std.proofs.lemmas.List.Edits.{sets};
ghost use Rattle.freelist_rules.specs.Release.{memories_of, bytes_of};
ghost use Rattle.freelist_rules.specs.Tables.{tables, store_of};
ghost use Rattle.freelist_outcomes.specs.Return.{gone_from, released_tables};
ghost use Rattle.freelist_release.specs.Frees.{Frees};

use crate::dropping::drop_chunks;
use crate::spares::spared;
use counter::FreeListSettings;
use freelist_rules::{CHUNKS_AT, REGION_COUNT_AT, WHOLE_AT};

// So many chunks went, of so many bytes in all.
#[derive(Clone, Copy)]
pub struct Freed {
    pub count: u64,
    pub bytes: u64,
}

// Wholly free chunks go, their memory numbers to the front of `list`; `spare` keeps that of the last region. The regions are
// walked only where more are all of their chunk than stay, and nothing is looked at where none is.
pub fn release(
    s: FreeListSettings,
    spare: bool,
    chunks: &mut [u64],
    regions: &mut [u64],
    list: &mut [u64],
) -> Freed
    requires { Frees s chunks.old regions.old list.old }
    ensures count_value { result.count ≡ length (gone_from s spare (tables [] [] chunks.old [] regions.old)) }
    ensures bytes_value { result.bytes ≡ bytes_of (gone_from s spare (tables [] [] chunks.old [] regions.old)) }
    ensures regions_after { tables [] [] chunks.new [] regions.new ≡ released_tables s spare (tables [] [] chunks.old [] regions.old) }
    ensures list_after { list.new ≡ sets list.old 0 (memories_of (store_of s (tables [] [] chunks.old [] regions.old)).chunks (gone_from s spare (tables [] [] chunks.old [] regions.old))) }
{
    let k = chunks[CHUNKS_AT] as usize;
    let n = regions[REGION_COUNT_AT] as usize;
    let whole = regions[WHOLE_AT];
    if whole == 0 {
        return Freed { count: 0, bytes: 0 };
    }
    let stay = spared(chunks, k, regions, n, spare);
    if whole == stay {
        return Freed { count: 0, bytes: 0 };
    }
    let gone = drop_chunks(chunks, k, regions, n, spare, list);
    chunks[CHUNKS_AT] = gone.chunks as u64;
    regions[REGION_COUNT_AT] = gone.regions as u64;
    regions[WHOLE_AT] = whole - gone.count;
    Freed {
        count: gone.count,
        bytes: gone.bytes,
    }
}
