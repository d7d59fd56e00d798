// SP 800-38A appendix F.2: the CBC examples for AES-128 and AES-256, block by block.
#![tactic(auto)]

use aes_key_expansion::{ExpandedKey, KeySize};
use std::io;

// A 16-byte key stands in the first half.
const KEY_128: [u8; 32] = *b"\x2b\x7e\x15\x16\x28\xae\xd2\xa6\xab\xf7\x15\x88\x09\xcf\x4f\x3c\
    \x00\x00\x00\x00\x00\x00\x00\x00\x00\x00\x00\x00\x00\x00\x00\x00";

const KEY_256: [u8; 32] = *b"\x60\x3d\xeb\x10\x15\xca\x71\xbe\x2b\x73\xae\xf0\x85\x7d\x77\x81\
    \x1f\x35\x2c\x07\x3b\x61\x08\xd7\x2d\x98\x10\xa3\x09\x14\xdf\xf4";

const IV: [u8; 16] = *b"\x00\x01\x02\x03\x04\x05\x06\x07\x08\x09\x0a\x0b\x0c\x0d\x0e\x0f";

const PLAINTEXT: [u8; 64] = *b"\x6b\xc1\xbe\xe2\x2e\x40\x9f\x96\xe9\x3d\x7e\x11\x73\x93\x17\x2a\
    \xae\x2d\x8a\x57\x1e\x03\xac\x9c\x9e\xb7\x6f\xac\x45\xaf\x8e\x51\
    \x30\xc8\x1c\x46\xa3\x5c\xe4\x11\xe5\xfb\xc1\x19\x1a\x0a\x52\xef\
    \xf6\x9f\x24\x45\xdf\x4f\x9b\x17\xad\x2b\x41\x7b\xe6\x6c\x37\x10";

fn main(rt: HostRuntime) -> io::Result<()> {
    let key = ExpandedKey::new(KeySize::Aes128, KEY_128);
    let ciphertext = encrypted(&key, PLAINTEXT);
    blocks(
        &rt,
        b"SP 800-38A F.2.1 CBC-AES128.Encrypt",
        b" ciphertext ",
        &ciphertext,
    )?;
    // F.2.2 decrypts what F.2.1 encrypts, and F.2.6 what F.2.5 does.
    let plaintext = decrypted(&key, ciphertext);
    blocks(
        &rt,
        b"SP 800-38A F.2.2 CBC-AES128.Decrypt",
        b" plaintext ",
        &plaintext,
    )?;

    let key = ExpandedKey::new(KeySize::Aes256, KEY_256);
    let ciphertext = encrypted(&key, PLAINTEXT);
    blocks(
        &rt,
        b"SP 800-38A F.2.5 CBC-AES256.Encrypt",
        b" ciphertext ",
        &ciphertext,
    )?;
    let plaintext = decrypted(&key, ciphertext);
    blocks(
        &rt,
        b"SP 800-38A F.2.6 CBC-AES256.Decrypt",
        b" plaintext ",
        &plaintext,
    )
}

fn encrypted(key: &ExpandedKey, plaintext: [u8; 64]) -> [u8; 64] {
    let mut data = plaintext;
    let _ = mode_cbc::encrypt(key, IV, &mut data);
    data
}

fn decrypted(key: &ExpandedKey, ciphertext: [u8; 64]) -> [u8; 64] {
    let mut data = ciphertext;
    let _ = mode_cbc::decrypt(key, IV, &mut data);
    data
}

fn blocks(rt: &impl Print, source: &[u8], name: &[u8], data: &[u8; 64]) -> io::Result<()> {
    block(rt, source, b"1", name, &data[..16])?;
    block(rt, source, b"2", name, &data[16..32])?;
    block(rt, source, b"3", name, &data[32..48])?;
    block(rt, source, b"4", name, &data[48..])
}

fn block(
    rt: &impl Print,
    source: &[u8],
    number: &[u8],
    name: &[u8],
    block: &[u8],
) -> io::Result<()> {
    test_print::text(rt, source)?;
    test_print::text(rt, b" block #")?;
    test_print::text(rt, number)?;
    test_print::text(rt, name)?;
    test_print::bytes(rt, block)?;
    test_print::newline(rt)
}
