// What a call comes to for a trial.
use counter::{Account, Refusal};
use reel::{Answer, Taken};

// The account after a call, and why it was refused, where it was.
#[derive(Clone, Copy)]
pub struct Done {
    pub account: Account,
    pub refusal: Option<Refusal>,
}

fn refusal(answer: Answer) -> Option<Refusal> {
    match answer {
        Answer::Asked(Err(r)) | Answer::Delivered(Err(r)) | Answer::Released(Err(r)) => {
            Some(r.refusal)
        }
        _ => None,
    }
}

impl From<Taken> for Done {
    fn from(taken: Taken) -> Done {
        Done {
            account: taken.account,
            refusal: taken.answer.and_then(refusal),
        }
    }
}
