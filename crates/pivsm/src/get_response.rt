// Exports the call of capi_get_response: what it promises and in which order it refuses stands there.
ghost use Rattle.std.specs.Prelude.{◌≡◌};
ghost use Rattle.capi_get_response.specs.Call.{given, left, pivsm_get_response};

#[unsafe(no_mangle)]
pub extern "C" fn pivsm_get_response(le: u8, apdu: &mut [u8], written: &mut usize) -> u32
    ensures { left result apdu.new written.new
        ≡ pivsm_get_response (given le apdu.old) }
{
    capi_get_response::pivsm_get_response(le, apdu, written)
}
