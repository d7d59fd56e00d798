// The tests of a response fragment before it is written, in their order (rule 2.5).
ghost use Rattle.std.specs.Prelude.{◌≡◌, ◌+◌, ◌-◌};
ghost use Rattle.chain_response.specs.Fragment.{next, fragment_response, fragment_answer};

use crate::part::next;
use apdu::StatusWord;
use chain_response::{LONGEST_FIELD, ResponseFragment};
use message_permission::status_permitted;
use refusal::Refusal;

// The first refusal, 3, 4, 14 or 6, or the length of the fragment, which a buffer of `room` bytes holds, and the index behind its data.
pub fn fragment_checks(
    status: StatusWord,
    field: &[u8],
    at: usize,
    le: u8,
    room: usize,
) -> Result<ResponseFragment, Refusal>
    ensures { result ≡ fragment_answer (next field.now at le) (fragment_response status field.now at le room) }
{
    if !status_permitted(status) {
        return Err(Refusal::NotPermitted);
    }
    if field.len() > LONGEST_FIELD {
        return Err(Refusal::TooLong);
    }
    if at >= field.len() {
        return Err(Refusal::BrokenChain);
    }
    let end = next(field, at, le);
    let needed = end - at + 2;
    if needed > room {
        return Err(Refusal::BufferTooSmall(needed));
    }
    Ok(ResponseFragment {
        len: needed,
        next: end,
    })
}
