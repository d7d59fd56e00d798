// Reassembling a response, for programs in C (c/include/pivsm.h).
#![tactic(auto)]

ghost use Rattle.std.specs.Prelude.{◌≡◌};
ghost use Rattle.octets.specs.Bytes.{IsBytes};
ghost use Rattle.capi_reassemble_response.specs.Call.{given, left, pivsm_reassemble_response};

use capi_values::HasValues;
use chain_reassemble_response::reassemble_response;
use chain_response::ResponseChain;

// Refusals 7, 14, 4 and 6. `bytes` is what the types say of the arguments; the demands use it.
// The status word is a number, since c/include/pivsm.h has it so.
pub fn pivsm_reassemble_response(
    chain: &mut u64,
    apdu: &[u8],
    field: &mut [u8],
    written: &mut usize,
    sw: &mut u16,
) -> u32
    ensures call { left result chain.new field.new written.new
        sw.new
        ≡ pivsm_reassemble_response (given chain.old apdu.now field.old) }
    ensures bytes { IsBytes apdu.now }
{
    let held = ResponseChain {
        len: *chain as usize,
    };
    let result = reassemble_response(held, apdu, field);
    *chain = result.next.len as u64;
    let values = result.answer.values();
    *written = values.len;
    *sw = values.status;
    values.number
}
