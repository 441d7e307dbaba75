// What the calls of both engines do alike: what a delivered outcome leads to, and what they answer.
#![tactic(auto)]

mod answers;
mod comings;
mod fates;
mod whole;

pub use answers::{
    answer_block, answer_order, deliver_block, lose_order, refuse_ask, refuse_delivery,
    refuse_return, settle,
};
pub use comings::{Coming, Keeping, Losing, come};
pub use fates::{Engine, Loss, is_deliverable, lead, suits};
pub use whole::{asked, delivered, released};
