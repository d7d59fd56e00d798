// The objects of a response that its MAC covers, with the data encrypted (SP 800-73-4 Part 2, 4.2.2 and 4.2.5).
ghost use Rattle.std.specs.Prelude.{◌+◌, ◌≤◌, length};
ghost use Rattle.octets.specs.Write.{Wrote};
ghost use Rattle.field_write.specs.Objects.{response_objects};
ghost use Rattle.message_ciphers.specs.Aes.{aes_ciphers};
ghost use Rattle.message_protocol.specs.Response.{response_ciphertext};
ghost use Rattle.message_wrap_response.specs.WrittenResponse.{MayWriteResponse};

use apdu::StatusWord;
use field_write::put_response_objects;
use message_counter::response_counter;
use message_encrypt::encrypt_text;
use message_key::SessionKey;
use session::Session;

// The objects that the MAC covers, from index 0 on; the index behind them.
pub fn put_objects(session: Session, status: StatusWord, data: &[u8], out: &mut [u8]) -> usize
    requires { MayWriteResponse session (length «data».now) (length out.old) }
    ensures objects { Wrote out.old 0 (response_objects (response_ciphertext aes_ciphers session «data».now) status.sw1 status.sw2) result out.new }
    ensures room { result + 10 ≤ length out.old }
{
    let Session { suite, sk_enc, .. } = session;
    let key = SessionKey {
        suite,
        bytes: sk_enc,
    };
    let counter = response_counter(session.count);
    // Fixed memory: the project allows no heap.
    let mut text = [0u8; 16384];
    let n = encrypt_text(key, counter, data, &mut text);
    put_response_objects(out, &text[..n], status.sw1, status.sw2)
}
