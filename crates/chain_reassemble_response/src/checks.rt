// The tests of a response fragment before it joins the chain, in the order of rule 2.5.
ghost use Rattle.std.specs.Prelude.{◌≡◌, ◌≤◌, length};
ghost use Rattle.message_result.specs.Results.{checked};
ghost use Rattle.chain_response.specs.Reassembly.{status_of, is_more, well_formed, possible, reassembly_checks};

use apdu::StatusWord;
use chain_response::ResponseChain;
use message_answer::{MAX_RESPONSE_FIELD, MORE_SW1};
use refusal::Refusal;

pub fn status_of(bytes: &[u8]) -> StatusWord
    requires { 2 ≤ length bytes.now }
    ensures { result ≡ status_of bytes.now }
{
    let n = bytes.len() - 2;
    StatusWord {
        sw1: bytes[n],
        sw2: bytes[n + 1],
    }
}

#[tactic(auto, unfolding(chain_response::specs::Reassembly::is_more))]
pub fn is_more(bytes: &[u8]) -> bool
    requires { 2 ≤ length bytes.now }
    ensures { result ≡ is_more bytes.now }
{
    status_of(bytes).sw1 == MORE_SW1
}

// More fragments follow only a fragment that has data.
#[tactic(auto, unfolding(chain_response::specs::Reassembly::well_formed))]
fn well_formed(bytes: &[u8]) -> bool
    ensures { result ≡ well_formed bytes.now }
{
    bytes.len() >= 2 && (!is_more(bytes) || bytes.len() > 2) && bytes.len() - 2 <= 256
}

#[tactic(auto, unfolding(chain_response::specs::Reassembly::possible))]
fn possible(chain: ResponseChain) -> bool
    ensures { result ≡ possible chain }
{
    chain.len <= MAX_RESPONSE_FIELD
}

// The state is tested before the sum is made, so that the sum fits a usize.
pub fn reassembly_checks(chain: ResponseChain, bytes: &[u8], room: usize) -> Result<(), Refusal>
    ensures { result ≡ checked (reassembly_checks chain bytes.now room) }
{
    if !well_formed(bytes) {
        return Err(Refusal::Malformed);
    }
    if !possible(chain) {
        return Err(Refusal::BrokenChain);
    }
    let needed = chain.len + (bytes.len() - 2);
    if needed > MAX_RESPONSE_FIELD {
        return Err(Refusal::TooLong);
    }
    if needed > room {
        return Err(Refusal::BufferTooSmall(needed));
    }
    Ok(())
}
