// Exports the call of capi_reassemble_command: what it promises and in which order it refuses stands there.
ghost use Rattle.std.specs.Prelude.{◌≡◌};
ghost use Rattle.octets.specs.Bytes.{IsBytes};
ghost use Rattle.capi_reassemble_command.specs.Call.{given, left, pivsm_reassemble_command};

#[unsafe(no_mangle)]
pub extern "C" fn pivsm_reassemble_command(
    chain: &mut u64,
    apdu: &[u8],
    field: &mut [u8],
    written: &mut usize,
    sw: &mut u16,
    ins: &mut u8,
    p1: &mut u8,
    p2: &mut u8,
) -> u32
    ensures call { left result chain.new field.new written.new
        sw.new ins.new p1.new p2.new
        ≡ pivsm_reassemble_command (given chain.old apdu.now field.old) }
    ensures bytes { IsBytes apdu.now }
{
    capi_reassemble_command::pivsm_reassemble_command(chain, apdu, field, written, sw, ins, p1, p2)
}
