// A chunk added: it stands after the others, wholly free.
ghost use Rattle.std.specs.Prelude.{◌≡◌, [], length, set};
ghost use Rattle.freelist_rules.specs.Threads.{thread_words};
ghost use Rattle.freelist_rules.specs.Tables.{tables, made_at, chunks_at};
ghost use Rattle.freelist_outcomes.specs.Deliver.{delivered_tables};
ghost use Rattle.freelist_place.specs.Ready.{Adds};

use counter::FreeListSettings;
use freelist_rules::{CHUNKS_AT, Gap, MADE_AT};
use store_rules::Chunk;

// So many chunks are held, and this chunk number was given last.
fn count_chunk(chunks: &mut [u64], held: u64, number: u64)
    ensures { chunks.new ≡ set (set chunks.old chunks_at held) made_at number }
{
    words::put(chunks, CHUNKS_AT, held);
    words::put(chunks, MADE_AT, number);
}

// Memory of `size` bytes is a chunk under the next number; the last loan by place is in front of its region.
pub fn add_chunk(
    s: FreeListSettings,
    memory: u64,
    size: u64,
    head: &mut [u64],
    chunks: &mut [u64],
    index: &[u64],
    regions: &mut [u64],
)
    requires { Adds s chunks.old regions.old × (length index.now ≡ thread_words s.store.loans) }
    ensures { tables head.new [] chunks.new index.now regions.new ≡ delivered_tables s memory size (tables head.old [] chunks.old index.now regions.old) }
{
    let own = s.store;
    let last = crate::threads::before_of(index, own.loans, 0);
    let k = words::word(chunks, CHUNKS_AT);
    let number = words::word(chunks, MADE_AT) + 1;
    let twice = rounding::double(size, s.last);
    freelist_regions::put_chunk(
        chunks,
        k as usize,
        Chunk {
            number: number,
            memory: memory,
            size: size,
        },
    );
    count_chunk(chunks, k + 1, number);
    crate::counted::append(
        s,
        regions,
        Gap {
            chunk: number,
            start: 0,
            end: size,
            front: last,
        },
    );
    crate::raising::raise_size(head, twice);
}
