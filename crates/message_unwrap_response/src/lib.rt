// The host unwraps a response (SP 800-73-4 Part 2, 4.2.2 and 4.2.5): the MAC is checked before anything is decrypted, the padding before anything is
// written. checks.rt gives refusals 1, 2, 13 and 4, field_read finds 7 and 8, and message_verify, which open.rt calls, gives 6, 9 and 10.
// It is not one generic function with message_unwrap_command: a trait for both would have a member for each test, key, counter, transition and
// result in which they differ, and would be no plainer.
#![tactic(auto)]

mod checks;
pub mod open;

ghost use Rattle.std.specs.Prelude.{◌≡◌, ◌≤◌, length};
ghost use Rattle.message_answer.specs.Message.{command_limit};
ghost use Rattle.message_answer.specs.Answer.{concluded, buffer};
ghost use Rattle.message_result.specs.Results.{response_result};
ghost use Rattle.message_unwrap_response.specs.UnwrapResponse.{unwrap_response, read_response, payload_of};

use apdu::StatusWord;
use checks::unwrap_response_checks;
use field_read::{FieldError, read_field};
use message_permission::response_wanted;
use message_result::{AcceptedResponse, refused};
use open::open_objects;
use refusal::{Answered, Refusal};
use session::Session;

// Reads a response that passed its tests: refusals 7 and 8, then those of open_objects. The count's bound stands in the contract of each step: as a
// type it would be made and taken apart at each call.
fn read_response(
    session: Session,
    status: StatusWord,
    field: &[u8],
    out: &mut [u8],
) -> Answered<AcceptedResponse, Session>
    requires { session.count ≤ command_limit }
    ensures result { result ≡ response_result (concluded session (read_response session status
        field.now (length out.old))) }
    ensures output { out.new ≡ buffer payload_of out.old (concluded session
        (read_response session status field.now (length out.old))).answer }
{
    match read_field(response_wanted(status), field) {
        Ok(objects) => open_objects(session, status, field, objects, out),
        Err(FieldError::Malformed(_)) => refused(session, Refusal::Malformed),
        Err(FieldError::Missing(_, _)) => refused(session, Refusal::MissingObject),
    }
}

// The data of a field, in the caller's buffer, and the status word: refusals 1, 2, 13, 4, then 7 or 8, 6, 9 and 10.
pub fn unwrap_response(
    session: Session,
    status: StatusWord,
    field: &[u8],
    out: &mut [u8],
) -> Answered<AcceptedResponse, Session>
    ensures result { result ≡ response_result (unwrap_response session status
        field.now (length out.old)) }
    ensures output { out.new ≡ buffer payload_of out.old
        (unwrap_response session status field.now (length out.old)).answer }
{
    match unwrap_response_checks(session, status, field.len()) {
        Ok(()) => read_response(session, status, field, out),
        Err(refusal) => refused(session, refusal),
    }
}
