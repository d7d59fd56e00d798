// Exports the call of capi_reassemble_response: what it promises and in which order it refuses stands there.
ghost use Rattle.std.specs.Prelude.{◌≡◌};
ghost use Rattle.octets.specs.Bytes.{IsBytes};
ghost use Rattle.capi_reassemble_response.specs.Call.{given, left, pivsm_reassemble_response};

#[unsafe(no_mangle)]
pub extern "C" fn pivsm_reassemble_response(
    chain: &mut u64,
    apdu: &[u8],
    field: &mut [u8],
    written: &mut usize,
    sw: &mut u16,
) -> u32
    ensures call { left result chain.new field.new written.new
        sw.new
        ≡ pivsm_reassemble_response (given chain.old apdu.now field.old) }
    ensures bytes { IsBytes apdu.now }
{
    capi_reassemble_response::pivsm_reassemble_response(chain, apdu, field, written, sw)
}
