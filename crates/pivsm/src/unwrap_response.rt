// Exports the call of capi_unwrap_response: what it promises and in which order it refuses stands there.
ghost use Rattle.std.specs.Prelude.{◌≡◌};
ghost use Rattle.octets.specs.Bytes.{IsBytes};
ghost use Rattle.capi_unwrap_response.specs.Call.{given, left, pivsm_unwrap_response};

#[unsafe(no_mangle)]
pub extern "C" fn pivsm_unwrap_response(
    session: &mut [u8],
    len: &mut usize,
    sw: u16,
    field: &[u8],
    payload: &mut [u8],
    written: &mut usize,
    status: &mut u16,
) -> u32
    ensures call { left result session.new len.new
        payload.new written.new status.new
        ≡ pivsm_unwrap_response (given session.old len.old sw
        field.now payload.old) }
    ensures bytes { IsBytes session.old }
{
    capi_unwrap_response::pivsm_unwrap_response(session, len, sw, field, payload, written, status)
}
