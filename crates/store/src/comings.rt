// What a delivery comes to, once its gate is passed.
ghost use Rattle.std.specs.Prelude.{◌≡◌, cond};
ghost use Rattle.store_rules.specs.Arrivals.{deny, go};
ghost use Rattle.store_rules.specs.Delivery.{fate_of};
ghost use Rattle.store.specs.Comings.{coming_of, comes};
ghost use Rattle.store.specs.Fates.{engine_of, deliverable};

use crate::fates::{Engine, Loss};
use counter::{KeptOrder, OpenOrder, Outcome, Refusal};

// The memory is kept as a chunk, and serves the ask of this order.
#[derive(Clone, Copy)]
pub struct Keeping {
    pub kept: KeptOrder,
    pub memory: u64,
}

#[derive(Clone, Copy)]
pub struct Losing {
    pub kept: KeptOrder,
    pub loss: Loss,
}

// What an order comes to that is not refused.
#[derive(Clone, Copy)]
pub enum Coming {
    Keep(Keeping),
    Lose(Losing),
}

// Test 13, and what the outcome leads to.
fn arrive(e: Engine, k: KeptOrder, o: Outcome, held: bool) -> Result<Coming, Refusal>
    ensures { coming_of result ≡ cond (deliverable k.order.map held o) (go k (fate_of (engine_of e) o)) (deny 13) }
{
    if !crate::fates::is_deliverable(k.order.map, held, o) {
        return Err(Refusal::Delivery);
    }
    Ok(match crate::fates::lead(e, o) {
        Ok(memory) => Coming::Keep(Keeping { kept: k, memory }),
        Err(loss) => Coming::Lose(Losing { kept: k, loss }),
    })
}

// `held` says whether the outcome's memory is held already.
pub fn come(e: Engine, order: OpenOrder, o: Outcome, held: bool) -> Result<Coming, Refusal>
    ensures { coming_of result ≡ comes (engine_of e) o held order }
{
    arrive(e, order.ok_or(Refusal::Order)?, o, held)
}
