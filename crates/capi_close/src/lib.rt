// Closing a session, for programs in C (c/include/pivsm.h), on its bytes.
#![tactic(auto)]

ghost use Rattle.std.specs.Prelude.{◌≡◌};
ghost use Rattle.octets.specs.Bytes.{IsBytes};
ghost use Rattle.capi_close.specs.Call.{given, left, pivsm_close};

use capi_session::{replace_session, session_in};

// Refusal 16. `bytes` is what the types say of the arguments; the demands use it.
pub fn pivsm_close(session: &mut [u8], len: &mut usize) -> u32
    ensures call { left result session.new len.new
        ≡ pivsm_close (given session.old len.old) }
    ensures bytes { IsBytes session.old }
{
    match session_in(session, *len) {
        Ok(held) => {
            replace_session(0, held.close(), session, len);
            0
        }
        Err(refusal) => refusal.number(),
    }
}
