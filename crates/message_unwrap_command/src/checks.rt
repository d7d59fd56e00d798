// The tests of unwrapping a command, in the order of rule 2.5.
ghost use Rattle.std.specs.Prelude.{◌≡◌};
ghost use Rattle.message_result.specs.Results.{checked};
ghost use Rattle.message_protocol.specs.Command.{unwrap_command_checks};

use message_answer::MAX_COMMAND_FIELD;
use message_permission::ins_permitted;
use refusal::Refusal;
use session::{Phase, Session, Side};
use session_rules::{is_open, valid};
use session_turn::is_turn;

// Tests an unwrap of a field of n bytes.
pub fn unwrap_command_checks(session: Session, ins: u8, n: usize) -> Result<(), Refusal>
    ensures { result ≡ checked (unwrap_command_checks session ins n) }
{
    if !is_open(session.phase) || !valid(session) {
        return Err(Refusal::SessionClosed);
    }
    if !is_turn(Side::Card, Phase::Ready, session.side, session.phase) {
        return Err(Refusal::OutOfTurn);
    }
    if !ins_permitted(ins) {
        return Err(Refusal::NotPermitted);
    }
    if n > MAX_COMMAND_FIELD {
        return Err(Refusal::TooLong);
    }
    if session.count >= Session::COMMAND_LIMIT {
        return Err(Refusal::CommandLimit);
    }
    Ok(())
}
