// What a delivery comes to, once the gate is passed.
ghost use Rattle.std.specs.Prelude.{◌≡◌, get_or};
ghost use Rattle.words.specs.Rows.{rows};
ghost use Rattle.store_rules.specs.Delivery.{holds};
ghost use Rattle.store.specs.Comings.{coming_of, known_in};
ghost use Rattle.freelist_rules.specs.Records.{chunk_row};
ghost use Rattle.freelist_rules.specs.Tables.{chunks_at};
ghost use Rattle.freelist_rules.specs.Walk.{memories};
ghost use Rattle.freelist_outcomes.specs.Deliver.{decide_deliver};

use counter::{OpenOrder, Outcome, Refusal};
use freelist_rules::{CHUNK_MEMORY_AT, CHUNK_WORDS, CHUNKS_AT};
use store::{Coming, Engine};

// Whether one of the first k chunks has this memory.
fn is_held(chunks: &[u64], k: usize, memory: u64) -> bool
    ensures { result ≡ holds memory (memories (rows chunk_row k chunks.now)) }
{
    let mut held = false;
    for i in 0..k {
        held = held | (words::cell(chunks, CHUNK_MEMORY_AT, CHUNK_WORDS, i) == memory);
    }
    held
}

// Whether an outcome's memory is held already.
fn is_known(o: Outcome, chunks: &[u64]) -> bool
    ensures { result ≡ known_in (memories (rows chunk_row (get_or chunks.now chunks_at 0) chunks.now)) o }
{
    match o {
        Outcome::Made(m) => is_held(chunks, words::word(chunks, CHUNKS_AT) as usize, m.number),
        Outcome::OutOfDevice | Outcome::OutOfHost => false,
    }
}

// Test 13, and what the outcome leads to.
pub fn decide_delivery(order: OpenOrder, o: Outcome, chunks: &[u64]) -> Result<Coming, Refusal>
    ensures { coming_of result ≡ decide_deliver o (memories (rows chunk_row (get_or chunks.now chunks_at 0) chunks.now)) order }
{
    store::come(Engine::FreeList, order, o, is_known(o, chunks))
}
