// Fragmenting a command, for programs in C (c/include/pivsm.h).
#![tactic(auto)]

ghost use Rattle.std.specs.Prelude.{◌≡◌};
ghost use Rattle.capi_fragment_command.specs.Call.{given, left, pivsm_fragment_command};

use apdu::Header;
use capi_values::HasValues;
use chain_fragment_command::fragment_command;

// Refusals 15, 4, 14 and 6.
// INS, P1 and P2 are parameters of their own, since c/include/pivsm.h has them so.
pub fn pivsm_fragment_command(
    ins: u8,
    p1: u8,
    p2: u8,
    field: &[u8],
    size: usize,
    number: usize,
    apdu: &mut [u8],
    written: &mut usize,
) -> u32
    ensures { left result apdu.new written.new
        ≡ pivsm_fragment_command (given ins p1 p2 field.now size number apdu.old) }
{
    let header = Header { ins, p1, p2 };
    let values = fragment_command(header, field, size, number, apdu).values();
    *written = values.len;
    values.number
}
