// Exports the call of capi_fragment_command: what it promises and in which order it refuses stands there.
ghost use Rattle.std.specs.Prelude.{◌≡◌};
ghost use Rattle.capi_fragment_command.specs.Call.{given, left, pivsm_fragment_command};

#[unsafe(no_mangle)]
pub extern "C" fn pivsm_fragment_command(
    ins: u8,
    p1: u8,
    p2: u8,
    field: &[u8],
    size: usize,
    number: usize,
    apdu: &mut [u8],
    written: &mut usize,
) -> u32
    ensures { left result apdu.new written.new
        ≡ pivsm_fragment_command (given ins p1 p2 field.now size number apdu.old) }
{
    capi_fragment_command::pivsm_fragment_command(ins, p1, p2, field, size, number, apdu, written)
}
