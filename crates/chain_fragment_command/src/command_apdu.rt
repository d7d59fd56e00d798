// The APDU of a command fragment, written into the caller's buffer (rule 7.2; SP 800-73-4 Part 2, 4.2.4).
ghost use Rattle.std.specs.Prelude.{◌+◌, ◌≤◌, length};
ghost use Rattle.octets.specs.Write.{Wrote};
ghost use Rattle.chain_command.specs.Apdu.{command_apdu, fragment_apdu};

use crate::part::Part;
use apdu::Header;
use chain_command::{CHAINED_CLA, LAST_CLA};
use octets::{put_byte, put_bytes};

// CLA, INS, P1, P2, Lc and data, from index 0 on; the index behind them.
fn put_command(out: &mut [u8], cla: u8, header: Header, data: &[u8]) -> usize
    requires { (length «data».now ≤ 255) × (5 + length «data».now ≤ length out.old) }
    ensures { Wrote out.old 0 (command_apdu cla header «data».now) result out.new }
{
    let lc = data.len() as u8;
    let n = put_bytes(out, 0, &[cla, header.ins, header.p1, header.p2, lc]);
    put_bytes(out, n, data)
}

// The APDU of the last fragment ends with Le '00'.
pub fn put_apdu(out: &mut [u8], header: Header, part: Part) -> usize
    requires { (length part.bytes.now ≤ 255) × (length (fragment_apdu part.last header part.bytes.now) ≤ length out.old) }
    ensures { Wrote out.old 0 (fragment_apdu part.entry.last header part.entry.bytes.now) result out.new }
{
    if part.last {
        let n = put_command(out, LAST_CLA, header, part.bytes);
        return put_byte(out, n, 0x00);
    }
    put_command(out, CHAINED_CLA, header, part.bytes)
}
