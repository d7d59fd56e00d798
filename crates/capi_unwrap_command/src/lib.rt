// The card unwraps a command, for programs in C (c/include/pivsm.h), on the bytes of a session.
#![tactic(auto)]

ghost use Rattle.std.specs.Prelude.{◌≡◌};
ghost use Rattle.octets.specs.Bytes.{IsBytes};
ghost use Rattle.capi_unwrap_command.specs.Call.{given, left, pivsm_unwrap_command};

use apdu::Header;
use capi_session::{replace_session, session_in};
use capi_values::HasValues;
use message_unwrap_command::unwrap_command;

// Refusals 16, 1, 2, 3, 4, 5, 7 or 8, 6, 9 and 10. `bytes` is what the types say of the arguments; the demands use it.
// INS, P1 and P2 are parameters of their own, since c/include/pivsm.h has them so.
pub fn pivsm_unwrap_command(
    session: &mut [u8],
    len: &mut usize,
    ins: u8,
    p1: u8,
    p2: u8,
    field: &[u8],
    payload: &mut [u8],
    written: &mut usize,
    le: &mut bool,
) -> u32
    ensures call { left result session.new len.new
        payload.new written.new le.new
        ≡ pivsm_unwrap_command (given session.old len.old ins p1 p2
        field.now payload.old) }
    ensures bytes { IsBytes session.old }
{
    let header = Header { ins, p1, p2 };
    let values = match session_in(session, *len) {
        Ok(held) => {
            let result = unwrap_command(held, header, field, payload);
            let values = result.answer.values();
            replace_session(values.number, result.next, session, len);
            values
        }
        Err(refusal) => refusal.values(),
    };
    *written = values.len;
    *le = values.le;
    values.number
}
