// Exports the call of capi_wrap_response: what it promises and in which order it refuses stands there.
ghost use Rattle.std.specs.Prelude.{◌≡◌};
ghost use Rattle.octets.specs.Bytes.{IsBytes};
ghost use Rattle.capi_wrap_response.specs.Call.{given, left, pivsm_wrap_response};

#[unsafe(no_mangle)]
pub extern "C" fn pivsm_wrap_response(
    session: &mut [u8],
    len: &mut usize,
    sw: u16,
    payload: &[u8],
    field: &mut [u8],
    written: &mut usize,
) -> u32
    ensures call { left result session.new len.new
        field.new written.new
        ≡ pivsm_wrap_response (given session.old len.old sw
        payload.now field.old) }
    ensures bytes { IsBytes session.old × IsBytes payload.now }
{
    capi_wrap_response::pivsm_wrap_response(session, len, sw, payload, field, written)
}
