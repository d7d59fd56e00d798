// The tests of a command fragment before it is written, in their order (rule 2.5).
ghost use Rattle.std.specs.Prelude.{◌≡◌, ◌≤◌, length, IfOk};
ghost use Rattle.apdu.specs.declared.Header.{Header};
ghost use Rattle.chain_command.specs.Fragment.{fragment_command};
ghost use Rattle.chain_fragment_command.specs.FragmentPart.{fragment_of};

use crate::part::{Part, apdu_length, fragment_count, fragment_part};
use chain_command::LONGEST_FIELD;
use refusal::Refusal;

// The most data of a fragment.
const MAX_FRAGMENT: usize = 255;

// The first refusal, 15, 4, 14 or 6, or the part of the field whose APDU a buffer of `room` bytes holds.
pub fn fragment_checks(
    field: &[u8],
    size: usize,
    number: usize,
    room: usize,
) -> Result<Part<'_>, Refusal>
    ensures answer { (h : Header) → fragment_of h result ≡ fragment_command h field.now size number room }
    ensures short { IfOk result (λ part. length part.bytes.now ≤ 255) }
{
    if size > MAX_FRAGMENT {
        return Err(Refusal::FragmentTooLong);
    }
    if field.len() > LONGEST_FIELD {
        return Err(Refusal::TooLong);
    }
    if number >= fragment_count(field.len(), size) {
        return Err(Refusal::BrokenChain);
    }
    let part = fragment_part(field, size, number);
    let needed = apdu_length(part);
    if needed > room {
        return Err(Refusal::BufferTooSmall(needed));
    }
    Ok(part)
}
