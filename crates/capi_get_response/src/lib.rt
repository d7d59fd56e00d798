// GET RESPONSE, for programs in C (c/include/pivsm.h).
#![tactic(auto)]

ghost use Rattle.std.specs.Prelude.{◌≡◌};
ghost use Rattle.capi_get_response.specs.Call.{given, left, pivsm_get_response};

use chain_reassemble_response::get_response;
use octets::put_bytes;
use refusal::Refusal;

// Refusal 6.
pub fn pivsm_get_response(le: u8, apdu: &mut [u8], written: &mut usize) -> u32
    ensures { left result apdu.new written.new
        ≡ pivsm_get_response (given le apdu.old) }
{
    *written = 5;
    if apdu.len() < 5 {
        return Refusal::BufferTooSmall(5).number();
    }
    put_bytes(apdu, 0, &get_response(le));
    0
}
