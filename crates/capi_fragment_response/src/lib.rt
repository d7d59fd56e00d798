// Fragmenting a response, for programs in C (c/include/pivsm.h).
#![tactic(auto)]

ghost use Rattle.std.specs.Prelude.{◌≡◌};
ghost use Rattle.capi_fragment_response.specs.Call.{given, left, pivsm_fragment_response};

use apdu::StatusWord;
use capi_values::HasValues;
use chain_fragment_response::fragment_response;

// Refusals 3, 4, 14 and 6.
// The status word is a number, since c/include/pivsm.h has it so.
pub fn pivsm_fragment_response(
    sw: u16,
    field: &[u8],
    at: usize,
    le: u8,
    apdu: &mut [u8],
    written: &mut usize,
    next: &mut usize,
) -> u32
    ensures { left result apdu.new written.new next.new
        ≡ pivsm_fragment_response (given sw field.now at le apdu.old) }
{
    let status = StatusWord::from(sw);
    let values = fragment_response(status, field, at, le, apdu).values();
    *written = values.len;
    *next = values.next;
    values.number
}
