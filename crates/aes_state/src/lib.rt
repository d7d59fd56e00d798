// FIPS 197's State, and a block of 16 bytes as one. The State is an array of columns: s[c][r] is the standard's s_(r,c).
#![tactic(auto)]

ghost use Rattle.std.specs.Prelude.{◌≡◌};
ghost use Rattle.aes_state.specs.State.{state_of, bytes_of};

// FIPS 197, 3.4: the State of 16 bytes, column by column.
pub fn state_of(input: [u8; 16]) -> [[u8; 4]; 4]
    ensures { result ≡ state_of input }
{
    [
        [input[0], input[1], input[2], input[3]],
        [input[4], input[5], input[6], input[7]],
        [input[8], input[9], input[10], input[11]],
        [input[12], input[13], input[14], input[15]],
    ]
}

// FIPS 197, 3.4: the 16 bytes of a State.
pub fn bytes_of(s: [[u8; 4]; 4]) -> [u8; 16]
    ensures { result ≡ bytes_of s }
{
    let [a, b, c, d] = s;
    [
        a[0], a[1], a[2], a[3], b[0], b[1], b[2], b[3], c[0], c[1], c[2], c[3], d[0], d[1], d[2],
        d[3],
    ]
}
