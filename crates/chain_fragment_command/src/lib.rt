// The host fragments a command field: the APDU of one fragment a call (rules 7.1 and 7.2; SP 800-73-4 Part 2, 4.2.4).
#![tactic(auto)]

mod checks;
mod command_apdu;
mod part;

ghost use Rattle.std.specs.Prelude.{◌≡◌, length};
ghost use Rattle.message_answer.specs.Answer.{buffer};
ghost use Rattle.chain_command.specs.Fragment.{fragment_command, fragment_answer};

use apdu::Header;
use checks::fragment_checks;
use command_apdu::put_apdu;
use refusal::Refusal;

// Fragment `number`, from 0 on, as an APDU in the caller's buffer: refusals 15, 4, 14 and 6.
pub fn fragment_command(
    header: Header,
    field: &[u8],
    size: usize,
    number: usize,
    out: &mut [u8],
) -> Result<usize, Refusal>
    ensures answer { result ≡ fragment_answer (fragment_command header field.now size number (length out.old)) }
    ensures output { out.new ≡ buffer (λ apdu. apdu) out.old (fragment_command header field.now size number (length out.old)) }
{
    let part = fragment_checks(field, size, number, out.len())?;
    Ok(put_apdu(out, header, part))
}
