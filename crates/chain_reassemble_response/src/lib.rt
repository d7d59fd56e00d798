// A response field is put together again from its fragments (rules 7.7 to 7.9).
#![tactic(auto)]

mod checks;

ghost use Rattle.std.specs.Prelude.{◌≡◌, ◌≤◌, length};
ghost use Rattle.octets.specs.Write.{put};
ghost use Rattle.chain_response.specs.Reassembly.{data_of, status_of, is_more, total, taken, reassemble_response, reassembly_buffer, get_response};

use apdu::StatusWord;
use chain_response::{ResponseChain, ResponsePart};
use checks::{is_more, reassembly_checks, status_of};
use octets::put_bytes;
use refusal::Answered;

// One fragment of a response: refusals 7, 14, 4 and 6, and each drops the chain. `reassemble_command` has the same arms, of other tests, parts
// and chains: one function over a trait of both would be longer than these two.
pub fn reassemble_response(
    chain: ResponseChain,
    bytes: &[u8],
    out: &mut [u8],
) -> Answered<ResponsePart, ResponseChain>
    ensures result { result ≡ reassemble_response chain bytes.now (length out.old) }
    ensures output { out.new ≡ reassembly_buffer chain bytes.now out.old }
{
    match reassembly_checks(chain, bytes, out.len()) {
        Ok(()) => take_fragment(chain, bytes, out),
        Err(refusal) => Answered {
            answer: Err(refusal),
            next: ResponseChain::EMPTY,
        },
    }
}

// The data of a fragment that passed its tests, behind what stands in the caller's buffer.
fn take_fragment(
    chain: ResponseChain,
    bytes: &[u8],
    out: &mut [u8],
) -> Answered<ResponsePart, ResponseChain>
    requires { (2 ≤ length bytes.now) × (total chain bytes.now ≤ length out.old) }
    ensures result { result ≡ taken (status_of bytes.now) (total chain bytes.now) (is_more bytes.now) }
    ensures output { out.new ≡ put out.old chain.len (data_of bytes.now) }
{
    let end = bytes.len() - 2;
    let n = put_bytes(out, chain.len, &bytes[..end]);
    taken(status_of(bytes), n, is_more(bytes))
}

// The answer to a fragment that is taken, and the next chain: n bytes so far.
#[tactic(auto, unfolding(chain_response::specs::Reassembly::taken))]
fn taken(status: StatusWord, n: usize, more: bool) -> Answered<ResponsePart, ResponseChain>
    ensures { result ≡ taken status n more }
{
    let (part, next) = if more {
        (ResponsePart::More(n, status.sw2), ResponseChain { len: n })
    } else {
        (ResponsePart::Whole(n, status), ResponseChain::EMPTY)
    };
    Answered {
        answer: Ok(part),
        next,
    }
}

// The GET RESPONSE to send next, with Le as the last fragment's status word gives it.
#[tactic(auto, unfolding(chain_response::specs::Reassembly::get_response))]
pub fn get_response(le: u8) -> [u8; 5]
    ensures { result ≡ get_response le }
{
    [0x00, 0xC0, 0x00, 0x00, le]
}
