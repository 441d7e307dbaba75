// What the calls of both engines answer, with the share of the account that they leave.
ghost use Rattle.std.specs.Prelude.{◌≡◌, [], ◌+◌, ◌≤◌};
ghost use Rattle.counter.specs.Limits.{objects_most};
ghost use Rattle.counter.specs.Paper as Paper;
ghost use Rattle.counter.specs.Paper.{number_of, free_of, ask_said, deliver_said, release_said};
ghost use Rattle.std.specs.Prelude.{None};
ghost use Rattle.store_rules.specs.Orders.{order_from};
ghost use Rattle.store_rules.specs.Outcomes.{block_said};
ghost use Rattle.store_rules.specs.Shares.{lost_share, released_share};

use crate::fates::Loss;
use counter::{Block, Granted, KeptOrder, Lent, OpenOrder, Refusal, Refused, StoreSettings};
use store_rules::{DeliveredShare, Loan, ReleasedShare, Share};

pub fn refuse_ask(refusal: Refusal) -> Result<Granted, Refused>
    ensures { ask_said result ≡ Paper.refusal (number_of refusal) [] }
{
    Err(refusal.into())
}

pub fn answer_block(l: Loan) -> Result<Granted, Refused>
    ensures { ask_said result ≡ block_said l }
{
    Ok(Granted::Block(l.into()))
}

// The order is told; whoever has the account keeps it with the ask.
pub fn answer_order(s: StoreSettings, z: u64) -> Result<Granted, Refused>
    ensures { ask_said result ≡ Paper.order_of (order_from s z) }
{
    Ok(Granted::Order(store_accounts::order_from(s, z)))
}

pub fn refuse_delivery(share: Share, order: OpenOrder, refusal: Refusal) -> DeliveredShare
    ensures { (result.share ≡ share) × (result.order ≡ order) × (deliver_said result.answer ≡ Paper.refusal (number_of refusal) []) }
{
    DeliveredShare {
        share,
        order,
        answer: Err(refusal.into()),
    }
}

// A block is lent from the new chunk.
pub fn deliver_block(share: Share, l: Loan) -> DeliveredShare
    ensures { (result.share ≡ share) × (result.order ≡ None) × (deliver_said result.answer ≡ block_said l) }
{
    DeliveredShare {
        share,
        order: None,
        answer: Ok(l.into()),
    }
}

// The order is closed by a failure.
pub fn lose_order(share: Share, k: KeptOrder, l: Loss) -> DeliveredShare
    ensures { (result.share ≡ lost_share share k.order.size l.charged (free_of l.free)) × (result.order ≡ None) × (deliver_said result.answer ≡ Paper.refusal (number_of l.refusal) (free_of l.free)) }
{
    DeliveredShare {
        share: store_accounts::lost(share, k.order.size, l.charged, l.free),
        order: None,
        answer: Err(Refused {
            refusal: l.refusal,
            free: l.free,
        }),
    }
}

pub fn refuse_return(share: Share, refusal: Refusal) -> ReleasedShare
    ensures { (result.share ≡ share) × (release_said result.answer ≡ Paper.refusal (number_of refusal) []) }
{
    ReleasedShare {
        share,
        answer: Err(refusal.into()),
    }
}

// So many chunks, of so many bytes in all, are gone: its share allows one object more for each.
pub fn settle(share: Share, count: u64, bytes: u64) -> ReleasedShare
    requires { share.objects + count ≤ objects_most }
    ensures { (result.share ≡ released_share share count bytes) × (release_said result.answer ≡ Paper.released count) }
{
    ReleasedShare {
        share: store_accounts::released(share, count as u32, bytes),
        answer: Ok(count),
    }
}
