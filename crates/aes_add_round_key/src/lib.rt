// AddRoundKey (FIPS 197, 5.1.4), and the sum of two words, which key expansion uses too.
#![tactic(auto)]

ghost use Rattle.std.specs.Prelude.{◌≡◌};
ghost use Rattle.aes_state.specs.State.{add_word};
ghost use Rattle.aes_add_round_key.specs.AddRoundKey.{add_round_key};

// The sum of two words.
pub fn add_word(a: [u8; 4], b: [u8; 4]) -> [u8; 4]
    ensures { result ≡ add_word a b }
{
    [a[0] ^ b[0], a[1] ^ b[1], a[2] ^ b[2], a[3] ^ b[3]]
}

// FIPS 197, 5.1.4: AddRoundKey.
pub fn add_round_key(s: [[u8; 4]; 4], k: [[u8; 4]; 4]) -> [[u8; 4]; 4]
    ensures { result ≡ add_round_key s k }
{
    [
        add_word(s[0], k[0]),
        add_word(s[1], k[1]),
        add_word(s[2], k[2]),
        add_word(s[3], k[3]),
    ]
}
