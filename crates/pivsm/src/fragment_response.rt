// Exports the call of capi_fragment_response: what it promises and in which order it refuses stands there.
ghost use Rattle.std.specs.Prelude.{◌≡◌};
ghost use Rattle.capi_fragment_response.specs.Call.{given, left, pivsm_fragment_response};

#[unsafe(no_mangle)]
pub extern "C" fn pivsm_fragment_response(
    sw: u16,
    field: &[u8],
    at: usize,
    le: u8,
    apdu: &mut [u8],
    written: &mut usize,
    next: &mut usize,
) -> u32
    ensures { left result apdu.new written.new next.new
        ≡ pivsm_fragment_response (given sw field.now at le apdu.old) }
{
    capi_fragment_response::pivsm_fragment_response(sw, field, at, le, apdu, written, next)
}
