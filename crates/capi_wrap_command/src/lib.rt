// The host wraps a command, for programs in C (c/include/pivsm.h), on the bytes of a session.
#![tactic(auto)]

ghost use Rattle.std.specs.Prelude.{◌≡◌};
ghost use Rattle.octets.specs.Bytes.{IsBytes};
ghost use Rattle.capi_wrap_command.specs.Call.{given, left, pivsm_wrap_command};

use apdu::Header;
use capi_session::{replace_session, session_in};
use capi_values::HasValues;
use message_wrap_command::wrap_command;

// Refusals 16, 1, 2, 3, 4, 5 and 6. `bytes` is what the types say of the arguments; the demands use it.
// INS, P1 and P2 are parameters of their own, since c/include/pivsm.h has them so.
pub fn pivsm_wrap_command(
    session: &mut [u8],
    len: &mut usize,
    ins: u8,
    p1: u8,
    p2: u8,
    le: bool,
    payload: &[u8],
    field: &mut [u8],
    written: &mut usize,
) -> u32
    ensures call { left result session.new len.new
        field.new written.new
        ≡ pivsm_wrap_command (given session.old len.old ins p1 p2 le
        payload.now field.old) }
    ensures bytes { IsBytes session.old × IsBytes payload.now }
{
    let header = Header { ins, p1, p2 };
    let values = match session_in(session, *len) {
        Ok(held) => {
            let result = wrap_command(held, header, le, payload, field);
            let values = result.answer.values();
            replace_session(values.number, result.next, session, len);
            values
        }
        Err(refusal) => refusal.values(),
    };
    *written = values.len;
    values.number
}
