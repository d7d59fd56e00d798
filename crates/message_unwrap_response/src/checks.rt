// The tests of unwrapping a response, in the order of rule 2.5.
ghost use Rattle.std.specs.Prelude.{◌≡◌};
ghost use Rattle.message_result.specs.Results.{checked};
ghost use Rattle.message_protocol.specs.Response.{unwrap_response_checks};

use apdu::StatusWord;
use message_answer::MAX_RESPONSE_FIELD;
use refusal::Refusal;
use session::{Phase, Session, Side};
use session_rules::{is_open, valid};
use session_turn::is_turn;

// Tests an unwrap of a field of n bytes, and the status word that came with it.
pub fn unwrap_response_checks(session: Session, status: StatusWord, n: usize) -> Result<(), Refusal>
    ensures { result ≡ checked (unwrap_response_checks session status n) }
{
    if !is_open(session.phase) || !valid(session) {
        return Err(Refusal::SessionClosed);
    }
    if !is_turn(Side::Host, Phase::Pending, session.side, session.phase) {
        return Err(Refusal::OutOfTurn);
    }
    if n == 0 {
        return Err(Refusal::Unprotected(status));
    }
    if n > MAX_RESPONSE_FIELD {
        return Err(Refusal::TooLong);
    }
    Ok(())
}
