// CMAC with AES (SP 800-38B): the subkeys, and the MAC of a message that comes in parts.
#![tactic(auto)]

ghost use Rattle.std.specs.Prelude.{◌≡◌, ◌<◌, length};
ghost use Rattle.aes.specs.Aes.{ciph};
ghost use Rattle.mode_cmac.specs.Running.{start, flush, add, absorb, finish};
ghost use Rattle.mode_cmac.specs.Subkeys.{shift_left, double, subkey1, subkey2};

use aes::encrypt_block;
use aes_key_expansion::ExpandedKey;
use octets_blocks::{array_at, xor_block};

const R128: [u8; 16] = [0, 0, 0, 0, 0, 0, 0, 0, 0, 0, 0, 0, 0, 0, 0, 0x87];

// x << 1
fn shift_left(x: [u8; 16]) -> [u8; 16]
    ensures { result ≡ shift_left x }
{
    let mut r = [0u8; 16];
    for i in 0..15 {
        r[i] = (x[i] << 1) ^ (x[i + 1] / 128);
    }
    r[15] = x[15] << 1;
    r
}

// A subkey from the value before it: x << 1, and R128 added where the top bit of x is 1.
fn double(x: [u8; 16]) -> [u8; 16]
    ensures { result ≡ double x }
{
    let shifted = shift_left(x);
    if x[0] < 128 {
        return shifted;
    }
    xor_block(shifted, R128)
}

// K1
pub fn subkey1(key: &ExpandedKey) -> [u8; 16]
    ensures { result ≡ subkey1 (ciph key.now.size key.now.words) }
{
    double(encrypt_block(key, [0u8; 16]))
}

// K2
pub fn subkey2(key: &ExpandedKey) -> [u8; 16]
    ensures { result ≡ subkey2 (ciph key.now.size key.now.words) }
{
    double(subkey1(key))
}

// The state between two parts of a message: `chain` is C_(i-1) with the `len` bytes of the current block added.
// A `len` above 16, which no call gives, is treated as 16: absorb and finish promise their equations of each len, so there is no invariant.
#[derive(Clone, Copy)]
pub struct Cmac {
    pub chain: [u8; 16],
    pub len: usize,
}

impl Cmac {
    pub fn start() -> Cmac
        ensures { result ≡ start }
    {
        Cmac {
            chain: [0u8; 16],
            len: 0,
        }
    }

    // A full block is enciphered, and the next one begins.
    fn flush(self, key: &ExpandedKey) -> Cmac
        ensures { result ≡ flush (ciph key.now.size key.now.words) self }
    {
        if 16 <= self.len {
            return Cmac {
                chain: encrypt_block(key, self.chain),
                len: 0,
            };
        }
        self
    }

    // A byte added to the current block.
    fn add(self, b: u8) -> Cmac
        requires { self.len < 16 }
        ensures { result ≡ add self b }
    {
        let mut chain = self.chain;
        chain[self.len] ^= b;
        Cmac {
            chain,
            len: self.len + 1,
        }
    }

    // Byte after byte.
    fn absorb_bytes(self, key: &ExpandedKey, data: &[u8]) -> Cmac
        ensures { result ≡ absorb (ciph key.now.size key.now.words) self «data».now }
    {
        let mut state = self;
        for b in data {
            state = state.flush(key).add(*b);
        }
        state
    }

    // A whole block at once where one begins: CMAC of 16 KiB byte after byte ran at three fifths of that speed.
    fn absorb_block(self, key: &ExpandedKey, data: &[u8]) -> Cmac
        ensures { result ≡ absorb (ciph key.now.size key.now.words) self «data».now }
    {
        if data.len() == 16 {
            let flushed = self.flush(key);
            if flushed.len == 0 {
                return Cmac {
                    chain: xor_block(flushed.chain, array_at(data, 0)),
                    len: 16,
                };
            }
        }
        self.absorb_bytes(key, data)
    }

    // The next part of the message. The current block is filled first, so that blocks begin behind it.
    pub fn absorb(self, key: &ExpandedKey, data: &[u8]) -> Cmac
        ensures { result ≡ absorb (ciph key.now.size key.now.words) self «data».now }
    {
        let filled = if self.len > 15 { 0 } else { self.len };
        let (first, rest) = data.split_at(data.len().min(16 - filled));
        let mut state = self.absorb_block(key, first);
        for block in rest.chunks(16) {
            state = state.absorb_block(key, block);
        }
        state
    }

    // The MAC of all that was absorbed.
    pub fn finish(self, key: &ExpandedKey) -> [u8; 16]
        ensures { result ≡ finish (ciph key.now.size key.now.words) self }
    {
        if self.len < 16 {
            let padded = self.add(0x80);
            return encrypt_block(key, xor_block(padded.chain, subkey2(key)));
        }
        encrypt_block(key, xor_block(self.chain, subkey1(key)))
    }
}
