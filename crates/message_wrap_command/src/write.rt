// A command that passed its tests, written: its objects, their MAC, and the next session (SP 800-73-4 Part 2, 4.2.2 to 4.2.4).
ghost use Rattle.std.specs.Prelude.{◌≡◌, length};
ghost use Rattle.octets.specs.Write.{over};
ghost use Rattle.message_answer.specs.Answer.{given};
ghost use Rattle.message_result.specs.Results.{wrap_result};
ghost use Rattle.message_wrap_command.specs.WrittenCommand.{MayWriteCommand, command_written};

use crate::objects::put_objects;
use apdu::Header;
use field_write::put_mac;
use message_key::SessionKey;
use message_mac::{command_mac, truncated};
use refusal::Answered;
use session::Session;
use session_turn::command_taken;

// Writes the whole field of a command that passed its tests, and gives the next session.
pub fn write_command(
    session: Session,
    header: Header,
    le: bool,
    data: &[u8],
    out: &mut [u8],
) -> Answered<usize, Session>
    requires { MayWriteCommand session le (length «data».now) (length out.old) }
    ensures result { result ≡ wrap_result (given (command_written session header le «data».now)) }
    ensures output { out.new ≡ over out.old (command_written session header le «data».now).gives }
{
    let end = put_objects(session, le, data, out);
    let Session { suite, sk_mac, .. } = session;
    let key = SessionKey {
        suite,
        bytes: sk_mac,
    };
    let full = command_mac(key, session.command_mcv, header, &out[..end]);
    let len = put_mac(out, end, truncated(full));
    Answered {
        answer: Ok(len),
        next: command_taken(session, full),
    }
}
