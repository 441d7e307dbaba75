// What a delivered outcome leads to.
ghost use Rattle.std.specs.Prelude.{Err, ◌≡◌, true, false, []};
ghost use Rattle.counter.specs.Paper.{number_of, free_of};
ghost use Rattle.store_rules.specs.Delivery as Delivery;
ghost use Rattle.store_rules.specs.Delivery.{gives_back, back_of, mapped, fate_of};
ghost use Rattle.store.specs.Fates.{engine_of, fate_from, deliverable};

use counter::{Mapping, Memory, Outcome, Refusal};

#[derive(Clone, Copy)]
pub enum Engine {
    Buddy,
    FreeList,
}

// How an order was lost: whether the heap was charged, and what is to be freed.
#[derive(Clone, Copy)]
pub struct Loss {
    pub refusal: Refusal,
    pub charged: bool,
    pub free: Option<u64>,
}

// Whether the map outcome suits an order to map, or one not to.
pub fn suits(map: bool, m: Mapping) -> bool
    ensures { result ≡ Delivery.suits map m }
{
    map != (m == Mapping::NotWanted)
}

// Whether an outcome can be taken: its memory not held yet, and its map outcome such as the order wants.
pub fn is_deliverable(map: bool, held: bool, o: Outcome) -> bool
    ensures { result ≡ deliverable map held o }
{
    match o {
        Outcome::Made(m) => !held & suits(map, m.mapping),
        Outcome::OutOfDevice | Outcome::OutOfHost => true,
    }
}

// Whether an engine gives the memory of a failed map back: only a free list's "map failed".
fn gives_back(e: Engine, m: Mapping) -> bool
    ensures { result ≡ gives_back (engine_of e) m }
{
    matches!((e, m), (Engine::FreeList, Mapping::Failed))
}

fn to_free(e: Engine, m: Mapping, memory: u64) -> Option<u64>
    ensures { free_of result ≡ back_of (engine_of e) m memory }
{
    gives_back(e, m).then_some(memory)
}

fn failed(e: Engine, memory: u64, m: Mapping, refusal: Refusal) -> Loss
    ensures { fate_from (Err result) ≡ Delivery.lost (number_of refusal) true (back_of (engine_of e) m memory) }
{
    Loss {
        refusal,
        charged: true,
        free: to_free(e, m, memory),
    }
}

fn fate_of_map(e: Engine, made: Memory) -> Result<u64, Loss>
    ensures { fate_from result ≡ mapped (engine_of e) made.number made.mapping }
{
    let m = made.mapping;
    match m {
        Mapping::Mapped | Mapping::NotWanted => Ok(made.number),
        Mapping::Failed | Mapping::OutOfHost => Err(failed(e, made.number, m, Refusal::Host)),
        Mapping::OutOfDevice => Err(failed(e, made.number, m, Refusal::Device)),
    }
}

// The allocation itself was refused: nothing was charged.
fn refuse(refusal: Refusal) -> Loss
    ensures { fate_from (Err result) ≡ Delivery.lost (number_of refusal) false [] }
{
    Loss {
        refusal,
        charged: false,
        free: None,
    }
}

// The memory is kept, or the order is lost.
pub fn lead(e: Engine, o: Outcome) -> Result<u64, Loss>
    ensures { fate_from result ≡ fate_of (engine_of e) o }
{
    match o {
        Outcome::Made(m) => fate_of_map(e, m),
        Outcome::OutOfDevice => Err(refuse(Refusal::Device)),
        Outcome::OutOfHost => Err(refuse(Refusal::Host)),
    }
}
