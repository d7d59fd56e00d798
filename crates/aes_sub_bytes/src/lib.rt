// SubBytes, InvSubBytes and SubWord (FIPS 197, 5.1.1, 5.3.2 and 5.2): one code, which takes the table.
#![tactic(auto)]

ghost use Rattle.std.specs.Prelude.{◌≡◌, ℕ, get_or};
ghost use Rattle.aes_sbox.specs.SBox.{IsTable};
ghost use Rattle.aes_state.specs.State.{at, word, state};

// The byte's entry: f b for each rule f that the table follows.
fn look_up(table: &[u8; 256], b: u8) -> u8
    ensures { (f : ℕ → ℕ) → IsTable f table.now → result ≡ f b }
{
    table[usize::from(b)]
}

// FIPS 197, 5.2: SubWord, with the S-box's table.
pub fn sub_word(table: &[u8; 256], a: [u8; 4]) -> [u8; 4]
    ensures { (f : ℕ → ℕ) → IsTable f table.now → result ≡ word (λ i. f (get_or a i 0)) }
{
    [
        look_up(table, a[0]),
        look_up(table, a[1]),
        look_up(table, a[2]),
        look_up(table, a[3]),
    ]
}

// FIPS 197, 5.1.1 and 5.3.2: SubBytes with the S-box's table, InvSubBytes with the inverse S-box's.
pub fn sub_bytes(table: &[u8; 256], s: [[u8; 4]; 4]) -> [[u8; 4]; 4]
    ensures { (f : ℕ → ℕ) → IsTable f table.now → result ≡ state (λ r c. f (at s r c)) }
{
    [
        sub_word(table, s[0]),
        sub_word(table, s[1]),
        sub_word(table, s[2]),
        sub_word(table, s[3]),
    ]
}
