// A response that passed its tests, written: its objects, their MAC, and the next session (SP 800-73-4 Part 2, 4.2.2 and 4.2.5).
ghost use Rattle.std.specs.Prelude.{◌≡◌, length};
ghost use Rattle.octets.specs.Write.{over};
ghost use Rattle.message_answer.specs.Answer.{given};
ghost use Rattle.message_result.specs.Results.{wrap_result};
ghost use Rattle.message_wrap_response.specs.WrittenResponse.{MayWriteResponse, response_written};

use crate::objects::put_objects;
use apdu::StatusWord;
use field_write::put_mac;
use message_key::SessionKey;
use message_mac::{response_mac, truncated};
use refusal::Answered;
use session::Session;
use session_turn::response_taken;

// Writes the whole field of a response that passed its tests, and gives the next session.
pub fn write_response(
    session: Session,
    status: StatusWord,
    data: &[u8],
    out: &mut [u8],
) -> Answered<usize, Session>
    requires { MayWriteResponse session (length «data».now) (length out.old) }
    ensures result { result ≡ wrap_result (given (response_written session status «data».now)) }
    ensures output { out.new ≡ over out.old (response_written session status «data».now).gives }
{
    let end = put_objects(session, status, data, out);
    let Session { suite, sk_rmac, .. } = session;
    let key = SessionKey {
        suite,
        bytes: sk_rmac,
    };
    let full = response_mac(key, session.response_mcv, &out[..end]);
    let len = put_mac(out, end, truncated(full));
    Answered {
        answer: Ok(len),
        next: response_taken(session, full),
    }
}
