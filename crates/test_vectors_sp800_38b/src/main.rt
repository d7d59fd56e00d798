// SP 800-38B appendix D: the CMAC examples for AES-128 (D.1) and AES-256 (D.3).
#![tactic(auto)]

use aes_key_expansion::{ExpandedKey, KeySize};
use mode_cmac::Cmac;
use std::io;

// A 16-byte key stands in the first half.
const KEY_128: [u8; 32] = *b"\x2b\x7e\x15\x16\x28\xae\xd2\xa6\xab\xf7\x15\x88\x09\xcf\x4f\x3c\
    \x00\x00\x00\x00\x00\x00\x00\x00\x00\x00\x00\x00\x00\x00\x00\x00";

const KEY_256: [u8; 32] = *b"\x60\x3d\xeb\x10\x15\xca\x71\xbe\x2b\x73\xae\xf0\x85\x7d\x77\x81\
    \x1f\x35\x2c\x07\x3b\x61\x08\xd7\x2d\x98\x10\xa3\x09\x14\xdf\xf4";
// The longest message; the others are its first 0, 16 and 40 bytes.
const MESSAGE: [u8; 64] = *b"\x6b\xc1\xbe\xe2\x2e\x40\x9f\x96\xe9\x3d\x7e\x11\x73\x93\x17\x2a\
    \xae\x2d\x8a\x57\x1e\x03\xac\x9c\x9e\xb7\x6f\xac\x45\xaf\x8e\x51\
    \x30\xc8\x1c\x46\xa3\x5c\xe4\x11\xe5\xfb\xc1\x19\x1a\x0a\x52\xef\
    \xf6\x9f\x24\x45\xdf\x4f\x9b\x17\xad\x2b\x41\x7b\xe6\x6c\x37\x10";

fn main(rt: HostRuntime) -> io::Result<()> {
    let key = ExpandedKey::new(KeySize::Aes128, KEY_128);
    test_print::text(&rt, b"SP 800-38B D.1 AES-128 K ")?;
    test_print::state(&rt, key.round_key(0))?;
    test_print::newline(&rt)?;
    subkeys(&rt, b"SP 800-38B D.1 AES-128", &key)?;
    let message = MESSAGE;
    example(
        &rt,
        b"SP 800-38B D.1 AES-128 Example 1 Mlen=0",
        &key,
        &message[..0],
    )?;
    example(
        &rt,
        b"SP 800-38B D.1 AES-128 Example 2 Mlen=128",
        &key,
        &message[..16],
    )?;
    example(
        &rt,
        b"SP 800-38B D.1 AES-128 Example 3 Mlen=320",
        &key,
        &message[..40],
    )?;
    example(
        &rt,
        b"SP 800-38B D.1 AES-128 Example 4 Mlen=512",
        &key,
        &message,
    )?;

    let key = ExpandedKey::new(KeySize::Aes256, KEY_256);
    test_print::text(&rt, b"SP 800-38B D.3 AES-256 K ")?;
    test_print::state(&rt, key.round_key(0))?;
    test_print::state(&rt, key.round_key(1))?;
    test_print::newline(&rt)?;
    subkeys(&rt, b"SP 800-38B D.3 AES-256", &key)?;
    let message = MESSAGE;
    example(
        &rt,
        b"SP 800-38B D.3 AES-256 Example 9 Mlen=0",
        &key,
        &message[..0],
    )?;
    example(
        &rt,
        b"SP 800-38B D.3 AES-256 Example 10 Mlen=128",
        &key,
        &message[..16],
    )?;
    example(
        &rt,
        b"SP 800-38B D.3 AES-256 Example 11 Mlen=320",
        &key,
        &message[..40],
    )?;
    example(
        &rt,
        b"SP 800-38B D.3 AES-256 Example 12 Mlen=512",
        &key,
        &message,
    )
}

// CIPH_K(0), of which 6.1 makes the subkeys, and these.
fn subkeys(rt: &impl Print, source: &[u8], key: &ExpandedKey) -> io::Result<()> {
    test_print::value(rt, source, b" CIPH_K(0) ", aes::encrypt_block(key, [0; 16]))?;
    test_print::value(rt, source, b" K1 ", mode_cmac::subkey1(key))?;
    test_print::value(rt, source, b" K2 ", mode_cmac::subkey2(key))
}

// The MAC of a message, absorbed whole, and again as its first 7 bytes and the rest.
fn example(rt: &impl Print, source: &[u8], key: &ExpandedKey, message: &[u8]) -> io::Result<()> {
    let absorbed = Cmac::start().absorb(key, message);
    test_print::value(rt, source, b" T ", absorbed.finish(key))?;
    // 7, or the length of a shorter message.
    let cut = message.len().min(7);
    let first = Cmac::start().absorb(key, &message[..cut]);
    let both = first.absorb(key, &message[cut..]);
    test_print::value(rt, source, b" T, M in two parts ", both.finish(key))
}
