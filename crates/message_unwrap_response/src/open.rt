// A response whose field was read: its MAC, its text, and the next session (SP 800-73-4 Part 2, 4.2.2 and 4.2.5).
ghost use Rattle.std.specs.Prelude.{◌≡◌, ◌≤◌, length};
ghost use Rattle.field_laws.specs.Written.{Conforms};
ghost use Rattle.message_answer.specs.Message.{command_limit};
ghost use Rattle.message_permission.specs.Permission.{response_wanted};
ghost use Rattle.message_answer.specs.Answer.{concluded, buffer};
ghost use Rattle.message_result.specs.Results.{response_result};
ghost use Rattle.message_verify.specs.VerifiedText.{received, WellSized};
ghost use Rattle.message_unwrap_response.specs.UnwrapResponse.{open_response, open_objects, payload_of};

use apdu::StatusWord;
use field_read::Objects;
use message_counter::response_counter;
use message_key::SessionKey;
use message_mac::response_mac;
use message_result::{AcceptedResponse, refused};
use message_verify::verified_text;
use refusal::Answered;
use session::Session;
use session_turn::response_taken;

// Opens a response by the full MAC that was computed, the eight bytes and the ciphertext that were received: refusals 6, 9 and 10. The full MAC becomes
// the next response chaining value, all 16 bytes of it.
pub fn open_response(
    session: Session,
    status: StatusWord,
    full: [u8; 16],
    mac: &[u8],
    ciphertext: &[u8],
    out: &mut [u8],
) -> Answered<AcceptedResponse, Session>
    requires { (session.count ≤ command_limit) × WellSized (received mac.now ciphertext.now) }
    ensures result { result ≡ response_result (concluded session (open_response session status full
        (received mac.now ciphertext.now) (length out.old))) }
    ensures output { out.new ≡ buffer payload_of out.old (concluded session
        (open_response session status full (received mac.now ciphertext.now)
        (length out.old))).answer }
{
    let Session { suite, sk_enc, .. } = session;
    let key = SessionKey {
        suite,
        bytes: sk_enc,
    };
    let counter = response_counter(session.count);
    match verified_text(key, counter, full, mac, ciphertext, out) {
        Ok(len) => Answered {
            answer: Ok(AcceptedResponse { len, status }),
            next: response_taken(session, full),
        },
        Err(refusal) => refused(session, refusal),
    }
}

// Opens a field whose objects are these: its MAC covers the bytes before '8E'.
pub fn open_objects(
    session: Session,
    status: StatusWord,
    field: &[u8],
    objects: Objects,
    out: &mut [u8],
) -> Answered<AcceptedResponse, Session>
    requires { (session.count ≤ command_limit) × Conforms (response_wanted status) field.now objects }
    ensures result { result ≡ response_result (concluded session (open_objects session status
        field.now (length out.old) objects)) }
    ensures output { out.new ≡ buffer payload_of out.old (concluded session
        (open_objects session status field.now (length out.old) objects)).answer }
{
    let Session { suite, sk_rmac, .. } = session;
    let key = SessionKey {
        suite,
        bytes: sk_rmac,
    };
    let full = response_mac(key, session.response_mcv, &field[..objects.mac_start]);
    let mac = &field[objects.mac..objects.mac + 8];
    let ciphertext = &field[objects.ciphertext..objects.ciphertext + objects.ciphertext_len];
    open_response(session, status, full, mac, ciphertext, out)
}
