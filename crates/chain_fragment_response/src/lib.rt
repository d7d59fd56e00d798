// The card fragments a response field: one fragment with its status word a call (rule 7.6; ISO/IEC 7816-4).
#![tactic(auto)]

mod checks;
mod part;

ghost use Rattle.std.specs.Prelude.{◌≡◌, ◌++◌, ◌+◌, ◌-◌, ◌≤◌, length, take, drop};
ghost use Rattle.octets.specs.Write.{Wrote};
ghost use Rattle.message_answer.specs.Answer.{buffer};
ghost use Rattle.chain_response.specs.Fragment.{fragment_status, next, fragment_response, fragment_answer};

use apdu::StatusWord;
use chain_response::ResponseFragment;
use checks::fragment_checks;
use octets::put_bytes;
use part::put_status;
use refusal::Refusal;

// The fragment from index `at` on, in the caller's buffer: refusals 3, 4, 14 and 6.
pub fn fragment_response(
    status: StatusWord,
    field: &[u8],
    at: usize,
    le: u8,
    out: &mut [u8],
) -> Result<ResponseFragment, Refusal>
    ensures answer { result ≡ fragment_answer (next field.now at le) (fragment_response status field.now at le (length out.old)) }
    ensures output { out.new ≡ buffer (λ bytes. bytes) out.old (fragment_response status field.now at le (length out.old)) }
{
    let ResponseFragment { next, .. } = fragment_checks(status, field, at, le, out.len())?;
    let len = put_fragment(out, status, field, at, next);
    Ok(ResponseFragment { len, next })
}

// Of a fragment that passed its tests: data up to index `end` of the field, and its status word, from index 0 on; the index behind them.
fn put_fragment(out: &mut [u8], status: StatusWord, field: &[u8], at: usize, end: usize) -> usize
    requires { (at ≤ end) × (end ≤ length field.now) × (end - at + 2 ≤ length out.old) }
    ensures { Wrote out.old 0 (take (end - at) (drop at field.now) ++ fragment_status status (length field.now - end)) result out.new }
{
    let n = put_bytes(out, 0, &field[at..end]);
    put_status(out, n, status, field.len() - end)
}
