// The data of a message, decrypted under the counter of its number (SP 800-73-4 Part 2, 4.2.2). It stands in this crate's own memory until its
// padding is right; only then it is written to the caller's buffer.
ghost use Rattle.std.specs.Prelude.{◌≡◌, ◌≤◌, ◌%◌, length, take};
ghost use Rattle.message_answer.specs.Message.{max_response_ciphertext};
ghost use Rattle.octets.specs.Write.{over};
ghost use Rattle.aes.specs.Aes.{inv_ciph};
ghost use Rattle.mode_cbc.specs.Cbc.{cbc_decrypt};
ghost use Rattle.session_suite.specs.StoredKeys.{key_in};
ghost use Rattle.message_ciphers.specs.Aes.{decrypt};
ghost use Rattle.message_answer.specs.Answer.{buffer};
ghost use Rattle.message_verify.specs.Reading.{text_of};
ghost use Rattle.message_verify.specs.Decryption.{Decrypted, unpadded};

use aes::encrypt_block;
use aes_key_expansion::ExpandedKey;
use field_padding::unpad;
use message_key::SessionKey;
use octets::put_bytes;

// CBC decryption of the first n bytes, which are whole blocks.
fn decrypt_start(key: &ExpandedKey, iv: [u8; 16], text: &mut [u8], n: usize)
    requires { (n % 16 ≡ 0) × (n ≤ length text.old) }
    ensures text { text.new ≡
        over text.old (cbc_decrypt (inv_ciph key.now.size key.now.words) iv (take n text.old)) }
    ensures length { length (cbc_decrypt (inv_ciph key.now.size key.now.words) iv (take n text.old)) ≡ n }
{
    let _ = mode_cbc::decrypt(key, iv, &mut text[..n]);
}

// Decrypts whole blocks into text, and finds where the data ends. No bytes are the encrypted form of no data.
fn decrypt_blocks(
    key: SessionKey,
    counter: [u8; 16],
    ciphertext: &[u8],
    text: &mut [u8],
) -> Option<usize>
    requires { (length ciphertext.now % 16 ≡ 0) × (length ciphertext.now ≤ length text.old) }
    ensures { Decrypted text.new (length ciphertext.now) result
        (decrypt (key_in key.suite key.bytes) counter ciphertext.now) }
{
    if ciphertext.len() == 0 {
        return Some(0);
    }
    let key = key.expanded();
    let iv = encrypt_block(&key, counter);
    let n = put_bytes(text, 0, ciphertext);
    decrypt_start(&key, iv, text, n);
    unpad(&text[..n])
}

// The data, decrypted in memory of this function's own and written from index 0 of the caller's buffer on, and its length; where the padding is
// wrong, nothing is written.
pub fn decrypt_text(
    key: SessionKey,
    counter: [u8; 16],
    ciphertext: &[u8],
    out: &mut [u8],
) -> Option<usize>
    requires { (length ciphertext.now % 16 ≡ 0) × (length ciphertext.now ≤ max_response_ciphertext)
        × (length ciphertext.now ≤ length out.old) }
    ensures answer { result ≡ unpadded (decrypt (key_in key.suite key.bytes) counter ciphertext.now) }
    ensures output { out.new ≡ buffer (λ d. d) out.old
        (text_of (decrypt (key_in key.suite key.bytes) counter ciphertext.now)) }
{
    // Fixed memory: the project allows no heap.
    let mut text = [0u8; 16384];
    let n = decrypt_blocks(key, counter, ciphertext, &mut text)?;
    put_bytes(out, 0, &text[..n]);
    Some(n)
}
