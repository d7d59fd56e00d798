// AES, CBC and CMAC for C (c/include/primitives.h): for the benchmark and the comparison with another library.
#![tactic(auto)]

ghost use Rattle.std.specs.Prelude.{◌≡◌, ◌≤◌, length};
ghost use Rattle.primitives.specs.Calls.{key_size, expanded, aes_answer, aes_encrypt_buffer, aes_decrypt_buffer, cbc_answer, cbc_encrypt_buffer, cbc_decrypt_buffer, cmac_answer, cmac_buffer};

use aes_key_expansion::{ExpandedKey, KeySize};
use mode_cmac::Cmac;
use octets::put_bytes;
use octets_blocks::array_at;

// The numbers of the calls: the C interface has them, so the exports give numbers and no Result.
const DONE: u32 = 0;

const MALFORMED: u32 = 7;

const BAD_KEY_LENGTH: u32 = 12;

// The size of a key as C hands it in.
fn key_size(len: usize) -> Option<KeySize>
    ensures { result ≡ key_size len }
{
    match len {
        16 => Some(KeySize::Aes128),
        32 => Some(KeySize::Aes256),
        _ => None,
    }
}

// A key of that size made ready for the rounds. Each call tests the length of its block, IV or MAC first: refused for that, it makes no schedule.
fn expanded(size: KeySize, key: &[u8]) -> ExpandedKey
    requires { length key.now ≤ 32 }
    ensures { result ≡ expanded size key.now }
{
    let mut bytes = [0u8; 32];
    put_bytes(&mut bytes, 0, key);
    ExpandedKey::new(size, bytes)
}

pub fn pivsm_aes_encrypt(key: &[u8], block: &mut [u8]) -> u32
    ensures answer { result ≡ aes_answer key.now block.old }
    ensures buffer { block.new ≡ aes_encrypt_buffer key.now block.old }
{
    let Some(size) = key_size(key.len()) else {
        return BAD_KEY_LENGTH;
    };
    if block.len() != 16 {
        return MALFORMED;
    }
    let key = expanded(size, key);
    let result = aes::encrypt_block(&key, array_at(block, 0));
    put_bytes(block, 0, &result);
    DONE
}

pub fn pivsm_aes_decrypt(key: &[u8], block: &mut [u8]) -> u32
    ensures answer { result ≡ aes_answer key.now block.old }
    ensures buffer { block.new ≡ aes_decrypt_buffer key.now block.old }
{
    let Some(size) = key_size(key.len()) else {
        return BAD_KEY_LENGTH;
    };
    if block.len() != 16 {
        return MALFORMED;
    }
    let key = expanded(size, key);
    let result = aes::decrypt_block(&key, array_at(block, 0));
    put_bytes(block, 0, &result);
    DONE
}

pub fn pivsm_cbc_encrypt(key: &[u8], iv: &[u8], data: &mut [u8]) -> u32
    ensures answer { result ≡ cbc_answer key.now iv.now «data».old }
    ensures buffer { «data».new ≡ cbc_encrypt_buffer key.now iv.now «data».old }
{
    let Some(size) = key_size(key.len()) else {
        return BAD_KEY_LENGTH;
    };
    if iv.len() != 16 {
        return MALFORMED;
    }
    let key = expanded(size, key);
    match mode_cbc::encrypt(&key, array_at(iv, 0), data) {
        Ok(()) => DONE,
        Err(_) => MALFORMED,
    }
}

pub fn pivsm_cbc_decrypt(key: &[u8], iv: &[u8], data: &mut [u8]) -> u32
    ensures answer { result ≡ cbc_answer key.now iv.now «data».old }
    ensures buffer { «data».new ≡ cbc_decrypt_buffer key.now iv.now «data».old }
{
    let Some(size) = key_size(key.len()) else {
        return BAD_KEY_LENGTH;
    };
    if iv.len() != 16 {
        return MALFORMED;
    }
    let key = expanded(size, key);
    match mode_cbc::decrypt(&key, array_at(iv, 0), data) {
        Ok(()) => DONE,
        Err(_) => MALFORMED,
    }
}

// The MAC of head followed by rest.
pub fn pivsm_cmac(key: &[u8], head: &[u8], rest: &[u8], mac: &mut [u8]) -> u32
    ensures answer { result ≡ cmac_answer key.now mac.old }
    ensures buffer { mac.new ≡ cmac_buffer key.now head.now rest.now mac.old }
{
    let Some(size) = key_size(key.len()) else {
        return BAD_KEY_LENGTH;
    };
    if mac.len() != 16 {
        return MALFORMED;
    }
    let key = expanded(size, key);
    let result = Cmac::start()
        .absorb(&key, head)
        .absorb(&key, rest)
        .finish(&key);
    put_bytes(mac, 0, &result);
    DONE
}
