// What a delivery comes to, by test 13.
ghost use Rattle.std.specs.Prelude.{◌≡◌, [], get_or};
ghost use Rattle.store_rules.specs.Delivery.{holds};
ghost use Rattle.store.specs.Comings.{coming_of, known_in};
ghost use Rattle.buddy_levels.specs.Seen.{level_part};
ghost use Rattle.buddy_rules.specs.Tables.{chunk_places_at, memories};
ghost use Rattle.buddy_outcomes.specs.Deliver.{decide_deliver};

use buddy_rules::{CHUNK_PLACES_AT, CHUNK_SIZE_AT, CHUNK_WORDS, MEMORY_AT};
use counter::{OpenOrder, Outcome, Refusal};
use store::{Coming, Engine};

// Whether one of the chunks at the first n places has this memory.
fn is_held(chunks: &[u64], n: u64, memory: u64) -> bool
    requires { n ≡ get_or chunks.now chunk_places_at 0 }
    ensures { result ≡ holds memory (memories (level_part 0 chunks.now []) n) }
{
    let mut held = false;
    for c in 0..n {
        let size = words::cell(chunks, CHUNK_SIZE_AT, CHUNK_WORDS, c as usize);
        let same = words::cell(chunks, MEMORY_AT, CHUNK_WORDS, c as usize) == memory;
        held = held | ((size != 0) & same);
    }
    held
}

// Whether an outcome's memory is held already.
fn is_known(o: Outcome, chunks: &[u64]) -> bool
    ensures { result ≡ known_in (memories (level_part 0 chunks.now []) (get_or chunks.now chunk_places_at 0)) o }
{
    match o {
        Outcome::Made(m) => is_held(chunks, words::word(chunks, CHUNK_PLACES_AT), m.number),
        Outcome::OutOfDevice | Outcome::OutOfHost => false,
    }
}

pub fn decide_delivery(order: OpenOrder, o: Outcome, chunks: &[u64]) -> Result<Coming, Refusal>
    ensures { coming_of result ≡ decide_deliver o (memories (level_part 0 chunks.now []) (get_or chunks.now chunk_places_at 0)) order }
{
    store::come(Engine::Buddy, order, o, is_known(o, chunks))
}
