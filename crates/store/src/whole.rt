// The same with the whole account that a share is of.
ghost use Rattle.std.specs.Prelude.{◌≡◌};
ghost use Rattle.counter.specs.Paper.{ask_said};
ghost use Rattle.store_rules.specs.Shares.{with_share, ask_left};

use counter::{
    Account, Ask, Asked, Delivered, Granted, KeptOrder, OpenOrder, Refused, Released, StoreSettings,
};
use store_rules::{DeliveredShare, ReleasedShare};

// The account that an ask leaves: where it told an order, that is kept with the ask.
fn left_by(a: Account, size: u64, mask: u64, answer: Result<Granted, Refused>) -> Account
    ensures { result ≡ ask_left a size mask (ask_said answer) }
{
    match answer {
        Ok(Granted::Order(order)) => {
            let ask = Ask { size, mask };
            store_accounts::with_order(a, Some(KeptOrder { ask, order }))
        }
        Ok(Granted::Block(_)) | Err(_) => a,
    }
}

pub fn asked(a: Account, size: u64, mask: u64, answer: Result<Granted, Refused>) -> Asked
    ensures { (result.account ≡ ask_left a size mask (ask_said answer)) × (result.answer ≡ answer) }
{
    Asked {
        account: left_by(a, size, mask, answer),
        answer,
    }
}

pub fn delivered(s: StoreSettings, a: Account, r: DeliveredShare) -> Delivered
    ensures { (result.account ≡ with_share s a r.share r.order) × (result.answer ≡ r.answer) }
{
    Delivered {
        account: store_accounts::with_share(s, a, r.share, r.order),
        answer: r.answer,
    }
}

pub fn released(s: StoreSettings, a: Account, r: ReleasedShare) -> Released
    ensures { (result.account ≡ with_share s a r.share a.order) × (result.answer ≡ r.answer) }
{
    Released {
        account: store_accounts::with_share(s, a, r.share, a.order),
        answer: r.answer,
    }
}
