// The tests of wrapping a response, in the order of rule 2.5.
ghost use Rattle.std.specs.Prelude.{◌≡◌};
ghost use Rattle.message_result.specs.Results.{checked};
ghost use Rattle.message_protocol.specs.Response.{wrap_response_checks};

use apdu::StatusWord;
use field_size::response_length;
use message_answer::MAX_RESPONSE_DATA;
use message_permission::status_permitted;
use refusal::Refusal;
use session::{Phase, Session, Side};
use session_rules::{is_open, valid};
use session_turn::is_turn;

// Tests a wrap of a response with n bytes of data into a buffer of that size.
pub fn wrap_response_checks(
    session: Session,
    status: StatusWord,
    n: usize,
    room: usize,
) -> Result<(), Refusal>
    ensures { result ≡ checked (wrap_response_checks session status n room) }
{
    if !is_open(session.phase) || !valid(session) {
        return Err(Refusal::SessionClosed);
    }
    if !is_turn(Side::Card, Phase::Pending, session.side, session.phase) {
        return Err(Refusal::OutOfTurn);
    }
    if !status_permitted(status) {
        return Err(Refusal::NotPermitted);
    }
    if n > MAX_RESPONSE_DATA {
        return Err(Refusal::TooLong);
    }
    let needed = response_length(n);
    if needed > room {
        return Err(Refusal::BufferTooSmall(needed));
    }
    Ok(())
}
