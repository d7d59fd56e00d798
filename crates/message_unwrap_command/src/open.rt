// A command whose field was read: its MAC, its text, and the next session (SP 800-73-4 Part 2, 4.2.2 to 4.2.4).
ghost use Rattle.std.specs.Prelude.{◌≡◌, ◌<◌, length};
ghost use Rattle.field_laws.specs.Written.{Conforms};
ghost use Rattle.message_answer.specs.Message.{command_limit};
ghost use Rattle.message_permission.specs.Permission.{command_wanted};
ghost use Rattle.message_answer.specs.Answer.{concluded, buffer};
ghost use Rattle.message_result.specs.Results.{command_result};
ghost use Rattle.message_verify.specs.VerifiedText.{received, WellSized};
ghost use Rattle.message_unwrap_command.specs.UnwrapCommand.{open_command, open_objects, payload_of};

use apdu::Header;
use field_read::Objects;
use message_counter::command_counter;
use message_key::SessionKey;
use message_mac::command_mac;
use message_result::{AcceptedCommand, refused};
use message_verify::verified_text;
use refusal::Answered;
use session::Session;
use session_turn::command_taken;

// Opens a command by the full MAC that was computed, the eight bytes and the ciphertext that were received: refusals 6, 9 and 10. The full MAC becomes
// the next command chaining value, all 16 bytes of it.
fn open_command(
    session: Session,
    le: bool,
    full: [u8; 16],
    mac: &[u8],
    ciphertext: &[u8],
    out: &mut [u8],
) -> Answered<AcceptedCommand, Session>
    requires { (session.count < command_limit) × WellSized (received mac.now ciphertext.now) }
    ensures result { result ≡ command_result (concluded session (open_command session le full
        (received mac.now ciphertext.now) (length out.old))) }
    ensures output { out.new ≡ buffer payload_of out.old (concluded session
        (open_command session le full (received mac.now ciphertext.now)
        (length out.old))).answer }
{
    let Session { suite, sk_enc, .. } = session;
    let key = SessionKey {
        suite,
        bytes: sk_enc,
    };
    let counter = command_counter(session.count + 1);
    match verified_text(key, counter, full, mac, ciphertext, out) {
        Ok(len) => Answered {
            answer: Ok(AcceptedCommand { len, le }),
            next: command_taken(session, full),
        },
        Err(refusal) => refused(session, refusal),
    }
}

// Opens a field whose objects are these: its MAC covers the bytes before '8E'.
pub fn open_objects(
    session: Session,
    header: Header,
    field: &[u8],
    objects: Objects,
    out: &mut [u8],
) -> Answered<AcceptedCommand, Session>
    requires { (session.count < command_limit) × Conforms (command_wanted header.ins) field.now objects }
    ensures result { result ≡ command_result (concluded session (open_objects session header
        field.now (length out.old) objects)) }
    ensures output { out.new ≡ buffer payload_of out.old (concluded session
        (open_objects session header field.now (length out.old) objects)).answer }
{
    let Session { suite, sk_mac, .. } = session;
    let key = SessionKey {
        suite,
        bytes: sk_mac,
    };
    let full = command_mac(
        key,
        session.command_mcv,
        header,
        &field[..objects.mac_start],
    );
    let mac = &field[objects.mac..objects.mac + 8];
    let ciphertext = &field[objects.ciphertext..objects.ciphertext + objects.ciphertext_len];
    open_command(session, objects.second, full, mac, ciphertext, out)
}
