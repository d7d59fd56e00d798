// The card wraps a response (SP 800-73-4 Part 2, 4.2.2 and 4.2.5). checks.rt gives refusals 1, 2, 3, 4 and 6; write.rt writes a response that
// passes. It is not one generic function with message_wrap_command: a trait for both would have a member for each test, object, key, counter and
// transition in which they differ, and would be no plainer.
#![tactic(auto)]

mod checks;
mod objects;
mod write;

ghost use Rattle.std.specs.Prelude.{◌≡◌, length};
ghost use Rattle.octets.specs.Bytes.{IsBytes};
ghost use Rattle.message_answer.specs.Answer.{buffer};
ghost use Rattle.message_protocol.specs.HonestDelivery.{Keyed};
ghost use Rattle.message_result.specs.Results.{wrap_result};
ghost use Rattle.message_wrap_response.specs.WrapResponse.{wrap_response};

use apdu::StatusWord;
use checks::wrap_response_checks;
use message_result::refused;
use refusal::{Answered, Refusal};
use session::Session;
use write::write_response;

// A status word with its data, as a field in the caller's buffer: refusals 1, 2, 3, 4 and 6.
// `bytes` and `keyed` are what the types say of the arguments; the demands use them.
pub fn wrap_response(
    session: Session,
    status: StatusWord,
    data: &[u8],
    out: &mut [u8],
) -> Answered<usize, Session>
    ensures result { result ≡ wrap_result (wrap_response session status «data».now (length out.old)) }
    ensures output { out.new ≡ buffer (λ field. field) out.old
        (wrap_response session status «data».now (length out.old)).answer }
    ensures bytes { IsBytes «data».now }
    ensures keyed { Keyed session }
{
    match wrap_response_checks(session, status, data.len(), out.len()) {
        Ok(()) => write_response(session, status, data, out),
        Err(refusal) => refused(session, refusal),
    }
}
