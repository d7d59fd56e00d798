// The host unwraps a response, for programs in C (c/include/pivsm.h), on the bytes of a session.
#![tactic(auto)]

ghost use Rattle.std.specs.Prelude.{◌≡◌};
ghost use Rattle.octets.specs.Bytes.{IsBytes};
ghost use Rattle.capi_unwrap_response.specs.Call.{given, left, pivsm_unwrap_response};

use apdu::StatusWord;
use capi_session::{replace_session, session_in};
use capi_values::HasValues;
use message_unwrap_response::unwrap_response;

// Refusals 16, 1, 2, 13, 4, 7 or 8, 6, 9 and 10. `bytes` is what the types say of the arguments; the demands use it.
// The status word is a number, since c/include/pivsm.h has it so.
pub fn pivsm_unwrap_response(
    session: &mut [u8],
    len: &mut usize,
    sw: u16,
    field: &[u8],
    payload: &mut [u8],
    written: &mut usize,
    status: &mut u16,
) -> u32
    ensures call { left result session.new len.new
        payload.new written.new status.new
        ≡ pivsm_unwrap_response (given session.old len.old sw
        field.now payload.old) }
    ensures bytes { IsBytes session.old }
{
    let sent = StatusWord::from(sw);
    let values = match session_in(session, *len) {
        Ok(held) => {
            let result = unwrap_response(held, sent, field, payload);
            let values = result.answer.values();
            replace_session(values.number, result.next, session, len);
            values
        }
        Err(refusal) => refusal.values(),
    };
    *written = values.len;
    *status = values.status;
    values.number
}
