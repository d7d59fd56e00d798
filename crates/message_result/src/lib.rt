// What the calls that wrap and unwrap give back: an answer, and the next session (rules 2.1 to 2.3).
#![tactic(auto)]

ghost use Rattle.std.specs.Prelude.{◌≡◌};
ghost use Rattle.message_answer.specs.Answer.{after_refusal};
ghost use Rattle.message_result.specs.Results.{refused_result};

use apdu::StatusWord;
use refusal::{Answered, Refusal};
use session::Session;

// Of the card's unwrap: the length of the data that stands in the caller's buffer, and whether Le is present.
#[derive(Clone, Copy, PartialEq, Eq)]
pub struct AcceptedCommand {
    pub len: usize,
    pub le: bool,
}

// Of the host's unwrap: the length of the data that stands in the caller's buffer, and the status word.
#[derive(Clone, Copy, PartialEq, Eq)]
pub struct AcceptedResponse {
    pub len: usize,
    pub status: StatusWord,
}

// A wrong MAC and wrong padding close the session; every other refusal keeps it as it was.
#[tactic(auto, unfolding(message_answer::specs::Outcome::after_refusal))]
fn after_refusal(session: Session, refusal: Refusal) -> Session
    ensures { result ≡ after_refusal session refusal }
{
    match refusal {
        Refusal::BadMac | Refusal::BadPadding => session.close(),
        _ => session,
    }
}

// A call that is refused, whatever it would have given.
pub fn refused<T>(session: Session, refusal: Refusal) -> Answered<T, Session>
    ensures { result ≡ refused_result session refusal }
{
    Answered {
        answer: Err(refusal),
        next: after_refusal(session, refusal),
    }
}
