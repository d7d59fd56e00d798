// Exports the call of capi_unwrap_command: what it promises and in which order it refuses stands there.
ghost use Rattle.std.specs.Prelude.{◌≡◌};
ghost use Rattle.octets.specs.Bytes.{IsBytes};
ghost use Rattle.capi_unwrap_command.specs.Call.{given, left, pivsm_unwrap_command};

#[unsafe(no_mangle)]
pub extern "C" fn pivsm_unwrap_command(
    session: &mut [u8],
    len: &mut usize,
    ins: u8,
    p1: u8,
    p2: u8,
    field: &[u8],
    payload: &mut [u8],
    written: &mut usize,
    le: &mut bool,
) -> u32
    ensures call { left result session.new len.new
        payload.new written.new le.new
        ≡ pivsm_unwrap_command (given session.old len.old ins p1 p2
        field.now payload.old) }
    ensures bytes { IsBytes session.old }
{
    capi_unwrap_command::pivsm_unwrap_command(
        session, len, ins, p1, p2, field, payload, written, le,
    )
}
