// What a record's call answered.
use counter::{Account, Asked, Delivered, Granted, Lent, Refused, Released};

#[derive(Clone, Copy)]
pub enum Answer {
    Asked(Result<Granted, Refused>),
    Delivered(Result<Lent, Refused>),
    Released(Result<u64, Refused>),
}

// A record that is no call of the store's engine has no answer.
#[derive(Clone, Copy)]
pub struct Taken {
    pub account: Account,
    pub answer: Option<Answer>,
}

impl From<Asked> for Taken {
    fn from(r: Asked) -> Taken {
        Taken {
            account: r.account,
            answer: Some(Answer::Asked(r.answer)),
        }
    }
}

impl From<Delivered> for Taken {
    fn from(r: Delivered) -> Taken {
        Taken {
            account: r.account,
            answer: Some(Answer::Delivered(r.answer)),
        }
    }
}

impl From<Released> for Taken {
    fn from(r: Released) -> Taken {
        Taken {
            account: r.account,
            answer: Some(Answer::Released(r.answer)),
        }
    }
}
