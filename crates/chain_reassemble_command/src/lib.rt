// A command field is put together again from its fragments (rules 7.3 to 7.5).
#![tactic(auto)]

mod checks;
mod command_apdu;

ghost use Rattle.std.specs.Prelude.{◌≡◌, ◌+◌, ◌≤◌, length};
ghost use Rattle.octets.specs.Write.{put};
ghost use Rattle.chain_command.specs.Apdu.{header_of, lc, data_of, is_last};
ghost use Rattle.chain_command.specs.Reassembly.{total, taken, reassemble_command, reassembly_buffer};

use apdu::{Header, StatusWord};
use chain_command::{CommandChain, CommandPart};
use checks::reassembly_checks;
use command_apdu::{header_of, is_last, lc};
use octets::put_bytes;
use refusal::Answered;

// The answer to a fragment after which more follow.
const NORMAL_PROCESSING: StatusWord = StatusWord {
    sw1: 0x90,
    sw2: 0x00,
};

// One fragment of a command: refusals 7, 14, 4 and 6, and each drops the chain.
pub fn reassemble_command(
    chain: CommandChain,
    apdu: &[u8],
    out: &mut [u8],
) -> Answered<CommandPart, CommandChain>
    ensures result { result ≡ reassemble_command chain apdu.now (length out.old) }
    ensures output { out.new ≡ reassembly_buffer chain apdu.now out.old }
{
    match reassembly_checks(chain, apdu, out.len()) {
        Ok(()) => take_fragment(chain, apdu, out),
        Err(refusal) => Answered {
            answer: Err(refusal),
            next: CommandChain::EMPTY,
        },
    }
}

// The data of a fragment that passed its tests, behind what stands in the caller's buffer.
fn take_fragment(
    chain: CommandChain,
    apdu: &[u8],
    out: &mut [u8],
) -> Answered<CommandPart, CommandChain>
    requires { (5 + lc apdu.now ≤ length apdu.now) × (total chain apdu.now ≤ length out.old) }
    ensures result { result ≡ taken (header_of apdu.now) (total chain apdu.now) (is_last apdu.now) }
    ensures output { out.new ≡ put out.old chain.len (data_of apdu.now) }
{
    let end = 5 + lc(apdu);
    let n = put_bytes(out, chain.len, &apdu[5..end]);
    taken(header_of(apdu), n, is_last(apdu))
}

// The answer to a fragment that is taken, and the next chain: n bytes so far.
#[tactic(auto, unfolding(chain_command::specs::Reassembly::taken))]
fn taken(header: Header, n: usize, last: bool) -> Answered<CommandPart, CommandChain>
    ensures { result ≡ taken header n last }
{
    let (part, next) = if last {
        (CommandPart::Whole(n, header), CommandChain::EMPTY)
    } else {
        (
            CommandPart::More(n, NORMAL_PROCESSING),
            CommandChain { len: n, header },
        )
    };
    Answered {
        answer: Ok(part),
        next,
    }
}
