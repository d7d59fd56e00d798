// The key sizes, KeyExpansion (FIPS 197, 5.2), and the round keys of a schedule. A schedule is made once and lent: 60 words, of
// which a 128-bit key uses 44.
#![tactic(auto)]

ghost use Rattle.std.specs.Prelude.{◌≡◌, ◌+◌, ◌*◌, ◌<◌, ◌≤◌};
ghost use Rattle.aes_sbox.specs.SBox.{IsTable, s_box};
ghost use Rattle.aes_key_expansion.specs.KeySizes.{nk, nr};
ghost use Rattle.aes_key_expansion.specs.KeyExpansion.{rot_word, rcon, key_word, next_word, schedule};
ghost use Rattle.aes_key_expansion.specs.ExpandedKey.{expanded_key};
ghost use Rattle.aes_key_expansion.specs.RoundKey.{round_key};

use aes_add_round_key::add_word;
use aes_sub_bytes::sub_word;

// AES-128 and AES-256.
#[derive(Clone, Copy)]
pub enum KeySize {
    Aes128,
    Aes256,
}

impl KeySize {
    // Nr.
    pub fn rounds(self) -> usize
        ensures { result ≡ nr self }
    {
        match self {
            KeySize::Aes128 => 10,
            KeySize::Aes256 => 14,
        }
    }
}

// FIPS 197, Table 5: the first byte of each round constant, from Rcon[1] on.
const RCON: [u8; 10] = [0x01, 0x02, 0x04, 0x08, 0x10, 0x20, 0x40, 0x80, 0x1b, 0x36];

// FIPS 197, 5.2: Rcon[j].
fn round_constant(j: usize) -> [u8; 4]
    requires { (1 ≤ j) × (j ≤ 10) }
    ensures { result ≡ rcon j }
{
    [RCON[j - 1], 0, 0, 0]
}

// FIPS 197, 5.2: RotWord.
fn rot_word(a: [u8; 4]) -> [u8; 4]
    ensures { result ≡ rot_word a }
{
    [a[1], a[2], a[3], a[0]]
}

// Word i of the key.
fn key_word(key: &[u8; 32], i: usize) -> [u8; 4]
    requires { i < 8 }
    ensures { result ≡ key_word key.now i }
{
    let j = 4 * i;
    [key[j], key[j + 1], key[j + 2], key[j + 3]]
}

// FIPS 197, 5.2: w[i]. Each case makes its own sum: key set-up and one block ran a third faster so.
fn next_word(table: &[u8; 256], n: usize, key: &[u8; 32], w: &[[u8; 4]; 60], i: usize) -> [u8; 4]
    requires table { IsTable s_box table.now }
    requires le_n { (4 ≤ n) × (n ≤ 8) × (i < 4 * n + 28) }
    ensures { result ≡ next_word n key.now w.now i }
{
    if i < n {
        return key_word(key, i);
    }
    let prior = w[i - n];
    let last = w[i - 1];
    let m = i % n;
    if m == 0 {
        let j = i / n;
        let temp = add_word(sub_word(table, rot_word(last)), round_constant(j));
        return add_word(prior, temp);
    }
    if 6 < n {
        if m == 4 {
            return add_word(prior, sub_word(table, last));
        }
    }
    add_word(prior, last)
}

// Nk.
fn nk(size: KeySize) -> usize
    ensures { result ≡ nk size }
{
    match size {
        KeySize::Aes128 => 4,
        KeySize::Aes256 => 8,
    }
}

// FIPS 197, 5.2: KeyExpansion. The words that the rounds do not use stay zero.
pub fn key_expansion(size: KeySize, key: [u8; 32]) -> [[u8; 4]; 60]
    ensures { result ≡ schedule size key }
{
    let table = aes_sbox::sbox();
    let n = nk(size);
    let end = 4 * size.rounds() + 4;
    let mut w = [[0u8; 4]; 60];
    for i in 0..end {
        w[i] = next_word(&table, n, &key, &w, i);
    }
    w
}

// A key's size and its schedule.
#[derive(Clone, Copy)]
pub struct ExpandedKey {
    pub size: KeySize,
    pub words: [[u8; 4]; 60],
}

impl ExpandedKey {
    // A 128-bit key is the first 16 of the 32 bytes.
    pub fn new(size: KeySize, key: [u8; 32]) -> ExpandedKey
        ensures { result ≡ expanded_key size key }
    {
        ExpandedKey {
            size,
            words: key_expansion(size, key),
        }
    }

    // The four words of a round key.
    pub fn round_key(&self, round: usize) -> [[u8; 4]; 4]
        requires { round < 15 }
        ensures { result ≡ round_key self.now.words round }
    {
        let w = &self.words;
        let i = 4 * round;
        [w[i], w[i + 1], w[i + 2], w[i + 3]]
    }
}
