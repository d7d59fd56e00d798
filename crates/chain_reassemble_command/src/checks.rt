// The tests of a command fragment before it joins the chain, in the order of rule 2.5.
ghost use Rattle.std.specs.Prelude.{◌≡◌};
ghost use Rattle.message_result.specs.Results.{checked};
ghost use Rattle.chain_command.specs.Reassembly.{possible, continues, reassembly_checks};

use crate::command_apdu::{header_of, lc, well_formed};
use apdu::Header;
use chain_command::CommandChain;
use message_answer::MAX_COMMAND_FIELD;
use refusal::Refusal;

#[tactic(auto, unfolding(chain_command::specs::Reassembly::possible))]
fn possible(chain: CommandChain) -> bool
    ensures { result ≡ possible chain }
{
    if chain.len == 0 {
        chain.header == CommandChain::EMPTY.header
    } else {
        chain.len <= MAX_COMMAND_FIELD
    }
}

#[tactic(auto, unfolding(chain_command::specs::Reassembly::continues))]
fn continues(chain: CommandChain, header: Header) -> bool
    ensures { result ≡ continues chain header }
{
    chain.len == 0 || header == chain.header
}

// The state is tested before the sum is made, so that the sum fits a usize.
pub fn reassembly_checks(chain: CommandChain, apdu: &[u8], room: usize) -> Result<(), Refusal>
    ensures { result ≡ checked (reassembly_checks chain apdu.now room) }
{
    if !well_formed(apdu) {
        return Err(Refusal::Malformed);
    }
    if !(possible(chain) && continues(chain, header_of(apdu))) {
        return Err(Refusal::BrokenChain);
    }
    let needed = chain.len + lc(apdu);
    if needed > MAX_COMMAND_FIELD {
        return Err(Refusal::TooLong);
    }
    if needed > room {
        return Err(Refusal::BufferTooSmall(needed));
    }
    Ok(())
}
