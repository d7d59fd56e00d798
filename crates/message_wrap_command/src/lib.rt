// The host wraps a command (SP 800-73-4 Part 2, 4.2.2 to 4.2.4). checks.rt gives refusals 1 to 6; write.rt writes a command that passes.
// It is no generic function with message_wrap_response: the reason stands there.
#![tactic(auto)]

mod checks;
mod objects;
mod write;

ghost use Rattle.std.specs.Prelude.{◌≡◌, length};
ghost use Rattle.octets.specs.Bytes.{IsBytes};
ghost use Rattle.message_answer.specs.Answer.{buffer};
ghost use Rattle.message_protocol.specs.HonestDelivery.{Keyed};
ghost use Rattle.message_result.specs.Results.{wrap_result};
ghost use Rattle.message_wrap_command.specs.WrapCommand.{wrap_command};

use apdu::Header;
use checks::wrap_command_checks;
use message_result::refused;
use refusal::{Answered, Refusal};
use session::Session;
use write::write_command;

// A command with its data, as a field in the caller's buffer: refusals 1, 2, 3, 4, 5 and 6.
// `bytes` and `keyed` are what the types say of the arguments; the demands use them.
pub fn wrap_command(
    session: Session,
    header: Header,
    le: bool,
    data: &[u8],
    out: &mut [u8],
) -> Answered<usize, Session>
    ensures result { result ≡ wrap_result (wrap_command session header le «data».now (length out.old)) }
    ensures output { out.new ≡ buffer (λ field. field) out.old
        (wrap_command session header le «data».now (length out.old)).answer }
    ensures bytes { IsBytes «data».now }
    ensures keyed { Keyed session }
{
    match wrap_command_checks(session, header, le, data.len(), out.len()) {
        Ok(()) => write_command(session, header, le, data, out),
        Err(refusal) => refused(session, refusal),
    }
}
