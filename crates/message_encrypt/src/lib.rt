// The data of a message, padded and encrypted under the counter of its number (SP 800-73-4 Part 2, 4.2.2).
#![tactic(auto)]

ghost use Rattle.std.specs.Prelude.{◌≤◌, ◌%◌, length, take, ◌≡◌};
ghost use Rattle.octets.specs.Write.{Wrote, over};
ghost use Rattle.field_size.specs.Lengths.{ciphertext_length};
ghost use Rattle.session_suite.specs.StoredKeys.{key_in};
ghost use Rattle.message_ciphers.specs.Aes.{encrypt};
ghost use Rattle.field_padding.specs.Padding.{pad, padded_length};
ghost use Rattle.aes.specs.Aes.{ciph};
ghost use Rattle.mode_cbc.specs.Cbc.{cbc_encrypt};

use aes::encrypt_block;
use aes_key_expansion::ExpandedKey;
use field_padding::put_padding;
use message_key::SessionKey;
use octets::put_bytes;

// Writes the encrypted data from index 0 on, and gives the index after it. No data gives nothing.
pub fn encrypt_text(key: SessionKey, counter: [u8; 16], data: &[u8], text: &mut [u8]) -> usize
    requires { ciphertext_length (length «data».now) ≤ length text.old }
    ensures { Wrote text.old 0 (encrypt (key_in key.suite key.bytes) counter «data».now) result text.new }
{
    if data.len() == 0 {
        return 0;
    }
    let key = key.expanded();
    let iv = encrypt_block(&key, counter);
    let n = put_padded(text, data);
    encrypt_start(&key, iv, text, n);
    n
}

// Writes data and padding from index 0 on, and gives the index after them.
fn put_padded(text: &mut [u8], data: &[u8]) -> usize
    requires { padded_length (length «data».now) ≤ length text.old }
    ensures { Wrote text.old 0 (pad «data».now) result text.new }
{
    let p = put_bytes(text, 0, data);
    put_padding(text, p, data.len())
}

// CBC encryption of the first n bytes, which are whole blocks.
fn encrypt_start(key: &ExpandedKey, iv: [u8; 16], text: &mut [u8], n: usize)
    requires { (n % 16 ≡ 0) × (n ≤ length text.old) }
    ensures { text.new ≡ over text.old (cbc_encrypt (ciph key.now.size key.now.words) iv (take n text.old)) }
{
    let _ = mode_cbc::encrypt(key, iv, &mut text[..n]);
}
