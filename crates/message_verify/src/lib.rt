// The data of a message, from what was received of it: there is room for it, then its MAC is right, then its padding, and only then it is written
// to the caller's buffer (rules 2.7, 6.4 and 4.5: refusals 6, 9 and 10).
#![tactic(auto)]

mod decrypt;

ghost use Rattle.std.specs.Prelude.{◌≡◌, length};
ghost use Rattle.session_suite.specs.StoredKeys.{key_in};
ghost use Rattle.message_answer.specs.Answer.{buffer};
ghost use Rattle.message_ciphers.specs.Aes.{aes_ciphers};
ghost use Rattle.message_verify.specs.VerifiedText.{received, WellSized, verified, verified_text};

use decrypt::decrypt_text;
use message_key::SessionKey;
use message_mac::{mac_matches, truncated};
use refusal::Refusal;

// Checks the room, the MAC and the padding, and writes the data, whose length it gives. `full` is the MAC that was computed, `mac` the eight bytes
// that were received.
pub fn verified_text(
    key: SessionKey,
    counter: [u8; 16],
    full: [u8; 16],
    mac: &[u8],
    ciphertext: &[u8],
    out: &mut [u8],
) -> Result<usize, Refusal>
    requires { WellSized (received mac.now ciphertext.now) }
    ensures answer { result ≡ verified (verified_text aes_ciphers (key_in key.suite key.bytes) counter full
        (received mac.now ciphertext.now) (length out.old)) }
    ensures output { out.new ≡ buffer (λ d. d) out.old
        (verified_text aes_ciphers (key_in key.suite key.bytes) counter full
        (received mac.now ciphertext.now) (length out.old)) }
{
    let needed = ciphertext.len();
    if needed > out.len() {
        return Err(Refusal::BufferTooSmall(needed));
    }
    if !mac_matches(mac, truncated(full)) {
        return Err(Refusal::BadMac);
    }
    let text = decrypt_text(key, counter, ciphertext, out);
    text.ok_or(Refusal::BadPadding)
}
