// Exports the call of capi_wrap_command: what it promises and in which order it refuses stands there.
ghost use Rattle.std.specs.Prelude.{◌≡◌};
ghost use Rattle.octets.specs.Bytes.{IsBytes};
ghost use Rattle.capi_wrap_command.specs.Call.{given, left, pivsm_wrap_command};

#[unsafe(no_mangle)]
pub extern "C" fn pivsm_wrap_command(
    session: &mut [u8],
    len: &mut usize,
    ins: u8,
    p1: u8,
    p2: u8,
    le: bool,
    payload: &[u8],
    field: &mut [u8],
    written: &mut usize,
) -> u32
    ensures call { left result session.new len.new
        field.new written.new
        ≡ pivsm_wrap_command (given session.old len.old ins p1 p2 le
        payload.now field.old) }
    ensures bytes { IsBytes session.old × IsBytes payload.now }
{
    capi_wrap_command::pivsm_wrap_command(session, len, ins, p1, p2, le, payload, field, written)
}
