// Bytes as elements of GF(2^8) (FIPS 197, 4).
#![tactic(auto)]

ghost use Rattle.std.specs.Prelude.{◌≡◌};
ghost use Rattle.aes_gf.specs.Field.{x_times, ◌•◌};

// b times x.
pub fn x_times(b: u8) -> u8
    ensures { result ≡ x_times b }
{
    (b << 1) ^ (b / 128 % 2 * 0x1b)
}

// b times a.
pub fn multiply(b: u8, a: u8) -> u8
    ensures { result ≡ b • a }
{
    let mut sum: u8 = 0;
    let mut bits = b;
    let mut shifted = a;
    for _ in 0..8usize {
        sum ^= bits % 2 * shifted;
        bits /= 2;
        shifted = x_times(shifted);
    }
    sum
}
