// Reassembling a command, for programs in C (c/include/pivsm.h). A chain of fragments is one number there.
#![tactic(auto)]

ghost use Rattle.std.specs.Prelude.{◌≡◌, ◌≤◌};
ghost use Rattle.message_answer.specs.Message.{max_command_field};
ghost use Rattle.capi_reassemble_command.specs.ChainNumbers.{chain_number, chain_of};
ghost use Rattle.octets.specs.Bytes.{IsBytes};
ghost use Rattle.capi_reassemble_command.specs.Call.{given, left, pivsm_reassemble_command};

use apdu::Header;
use capi_values::HasValues;
use chain_command::CommandChain;
use chain_reassemble_command::reassemble_command;

// Refusals 7, 14, 4 and 6. `bytes` is what the types say of the arguments; the demands use it.
// INS, P1 and P2 are parameters of their own, since c/include/pivsm.h has them so.
pub fn pivsm_reassemble_command(
    chain: &mut u64,
    apdu: &[u8],
    field: &mut [u8],
    written: &mut usize,
    sw: &mut u16,
    ins: &mut u8,
    p1: &mut u8,
    p2: &mut u8,
) -> u32
    ensures call { left result chain.new field.new written.new
        sw.new ins.new p1.new p2.new
        ≡ pivsm_reassemble_command (given chain.old apdu.now field.old) }
    ensures bytes { IsBytes apdu.now }
{
    let held = chain_of(*chain);
    let result = reassemble_command(held, apdu, field);
    *chain = chain_number(result.next);
    let values = result.answer.values();
    *written = values.len;
    *sw = values.status;
    *ins = values.header.ins;
    *p1 = values.header.p1;
    *p2 = values.header.p2;
    values.number
}

// The chain that a number stands for.
#[tactic(auto, unfolding(crate::specs::ChainNumbers::chain_of))]
fn chain_of(n: u64) -> CommandChain
    ensures { result ≡ chain_of n }
{
    let [.., ins, p1, p2] = n.to_be_bytes();
    CommandChain {
        len: (n / 16777216) as usize,
        header: Header { ins, p1, p2 },
    }
}

// The number of a chain.
#[tactic(auto, unfolding(crate::specs::ChainNumbers::chain_number))]
fn chain_number(chain: CommandChain) -> u64
    requires { chain.len ≤ max_command_field }
    ensures { result ≡ chain_number chain }
{
    let Header { ins, p1, p2 } = chain.header;
    let header = u32::from_be_bytes([0, ins, p1, p2]);
    chain.len as u64 * 16777216 + u64::from(header)
}
