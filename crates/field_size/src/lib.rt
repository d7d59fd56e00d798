// How long a secure messaging field is, from the length of its data and whether Le is present. The bound of that length stands in
// each contract: a type of its own for it would be converted at every call.
#![tactic(auto)]

ghost use Rattle.std.specs.Prelude.{◌≡◌, ◌<◌};
ghost use Rattle.field_size.specs.Lengths.{ciphertext_length, encrypted_data_length, command_length, response_length};

use field_ber_length::length_size;
use field_padding::padded_length;

// The length of the encrypted form of p bytes of data.
fn ciphertext_length(p: usize) -> usize
    requires { p < 65536 }
    ensures { result ≡ ciphertext_length p }
{
    if p == 0 {
        return 0;
    }
    padded_length(p)
}

fn encrypted_data_length(e: usize) -> usize
    requires { e < 131072 }
    ensures { result ≡ encrypted_data_length e }
{
    if e == 0 {
        return 0;
    }
    2 + length_size(e + 1) + e
}

// The length of a command's field with p bytes of data.
pub fn command_length(p: usize, le: bool) -> usize
    requires { p < 65536 }
    ensures { result ≡ command_length p le }
{
    let n = encrypted_data_length(ciphertext_length(p));
    if le {
        return n + 3 + 10;
    }
    n + 10
}

// The length of a response's field with p bytes of data.
pub fn response_length(p: usize) -> usize
    requires { p < 65536 }
    ensures { result ≡ response_length p }
{
    encrypted_data_length(ciphertext_length(p)) + 4 + 10
}
