// The card wraps a response, for programs in C (c/include/pivsm.h), on the bytes of a session.
#![tactic(auto)]

ghost use Rattle.std.specs.Prelude.{◌≡◌};
ghost use Rattle.octets.specs.Bytes.{IsBytes};
ghost use Rattle.capi_wrap_response.specs.Call.{given, left, pivsm_wrap_response};

use apdu::StatusWord;
use capi_session::{replace_session, session_in};
use capi_values::HasValues;
use message_wrap_response::wrap_response;

// Refusals 16, 1, 2, 3, 4 and 6. `bytes` is what the types say of the arguments; the demands use it.
// The status word is a number, since c/include/pivsm.h has it so.
pub fn pivsm_wrap_response(
    session: &mut [u8],
    len: &mut usize,
    sw: u16,
    payload: &[u8],
    field: &mut [u8],
    written: &mut usize,
) -> u32
    ensures call { left result session.new len.new
        field.new written.new
        ≡ pivsm_wrap_response (given session.old len.old sw
        payload.now field.old) }
    ensures bytes { IsBytes session.old × IsBytes payload.now }
{
    let status = StatusWord::from(sw);
    let values = match session_in(session, *len) {
        Ok(held) => {
            let result = wrap_response(held, status, payload, field);
            let values = result.answer.values();
            replace_session(values.number, result.next, session, len);
            values
        }
        Err(refusal) => refusal.values(),
    };
    *written = values.len;
    values.number
}
