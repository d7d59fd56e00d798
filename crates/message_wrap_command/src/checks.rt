// The tests of wrapping a command, in the order of rule 2.5.
ghost use Rattle.std.specs.Prelude.{◌≡◌};
ghost use Rattle.message_result.specs.Results.{checked};
ghost use Rattle.message_answer.specs.Message.{command_header};
ghost use Rattle.message_protocol.specs.Command.{wrap_command_checks};

use apdu::Header;
use field_size::command_length;
use message_answer::MAX_COMMAND_DATA;
use message_permission::command_permitted;
use refusal::Refusal;
use session::{Phase, Session, Side};
use session_rules::{is_open, valid};
use session_turn::is_turn;

// Tests a wrap of a command with n bytes of data into a buffer of that size.
pub fn wrap_command_checks(
    session: Session,
    header: Header,
    le: bool,
    n: usize,
    room: usize,
) -> Result<(), Refusal>
    ensures { result ≡ checked (wrap_command_checks session (command_header header le) n room) }
{
    if !is_open(session.phase) || !valid(session) {
        return Err(Refusal::SessionClosed);
    }
    if !is_turn(Side::Host, Phase::Ready, session.side, session.phase) {
        return Err(Refusal::OutOfTurn);
    }
    if !command_permitted(header, le, n) {
        return Err(Refusal::NotPermitted);
    }
    if n > MAX_COMMAND_DATA {
        return Err(Refusal::TooLong);
    }
    if session.count >= Session::COMMAND_LIMIT {
        return Err(Refusal::CommandLimit);
    }
    let needed = command_length(n, le);
    if needed > room {
        return Err(Refusal::BufferTooSmall(needed));
    }
    Ok(())
}
