// The card unwraps a command (SP 800-73-4 Part 2, 4.2.2 to 4.2.4): the MAC is checked before anything is decrypted, the padding before anything is
// written. checks.rt gives refusals 1 to 5, field_read finds 7 and 8, and message_verify, which open.rt calls, gives 6, 9 and 10.
// It is no generic function with message_unwrap_response: the reason stands there.
#![tactic(auto)]

mod checks;
mod open;

ghost use Rattle.std.specs.Prelude.{◌≡◌, ◌<◌, length};
ghost use Rattle.message_answer.specs.Message.{command_limit};
ghost use Rattle.message_answer.specs.Answer.{concluded, buffer};
ghost use Rattle.message_result.specs.Results.{command_result};
ghost use Rattle.message_unwrap_command.specs.UnwrapCommand.{unwrap_command, read_command, payload_of};

use apdu::Header;
use checks::unwrap_command_checks;
use field_read::{FieldError, read_field};
use message_permission::command_wanted;
use message_result::{AcceptedCommand, refused};
use open::open_objects;
use refusal::{Answered, Refusal};
use session::Session;

// Reads a command that passed its tests: refusals 7 and 8, then those of open_objects. The count's bound stands in the contract of each step: as a
// type it would be made and taken apart at each call.
fn read_command(
    session: Session,
    header: Header,
    field: &[u8],
    out: &mut [u8],
) -> Answered<AcceptedCommand, Session>
    requires { session.count < command_limit }
    ensures result { result ≡ command_result (concluded session (read_command session header
        field.now (length out.old))) }
    ensures output { out.new ≡ buffer payload_of out.old (concluded session
        (read_command session header field.now (length out.old))).answer }
{
    match read_field(command_wanted(header.ins), field) {
        Ok(objects) => open_objects(session, header, field, objects, out),
        Err(FieldError::Malformed(_)) => refused(session, Refusal::Malformed),
        Err(FieldError::Missing(_, _)) => refused(session, Refusal::MissingObject),
    }
}

// The data of a field, in the caller's buffer, and whether Le is present: refusals 1, 2, 3, 4, 5, then 7 or 8, 6, 9 and 10.
pub fn unwrap_command(
    session: Session,
    header: Header,
    field: &[u8],
    out: &mut [u8],
) -> Answered<AcceptedCommand, Session>
    ensures result { result ≡ command_result (unwrap_command session header
        field.now (length out.old)) }
    ensures output { out.new ≡ buffer payload_of out.old
        (unwrap_command session header field.now (length out.old)).answer }
{
    match unwrap_command_checks(session, header.ins, field.len()) {
        Ok(()) => read_command(session, header, field, out),
        Err(refusal) => refused(session, refusal),
    }
}
