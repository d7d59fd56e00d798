// MixColumns (FIPS 197, 5.1.3), and InvMixColumns (5.3.3), which undoes it: each entry is its row of products.
#![tactic(auto)]

ghost use Rattle.std.specs.Prelude.{◌≡◌, ◌<◌};
ghost use Rattle.aes_gf.specs.Field.{◌•◌};
ghost use Rattle.aes_mix_columns.specs.MixColumn.{mix_column, inv_mix_column};
ghost use Rattle.aes_mix_columns.specs.MixColumns.{mix_columns, inv_mix_columns};

use aes_gf::x_times;

// K times a, for a K of four bits: the sum of the multiples of a by the powers of x that K's bits select.
fn times<const K: u8>(a: u8) -> u8
    requires { K < 16 }
    ensures { result ≡ K • a }
{
    let a2 = x_times(a);
    let a4 = x_times(a2);
    let a8 = x_times(a4);
    (K / 8 % 2 * a8) ^ (K / 4 % 2 * a4) ^ (K / 2 % 2 * a2) ^ (K % 2 * a)
}

// FIPS 197, 5.1.3: one column.
fn mix_column(s: [u8; 4]) -> [u8; 4]
    ensures { result ≡ mix_column s }
{
    [
        times::<2>(s[0]) ^ times::<3>(s[1]) ^ s[2] ^ s[3],
        s[0] ^ times::<2>(s[1]) ^ times::<3>(s[2]) ^ s[3],
        s[0] ^ s[1] ^ times::<2>(s[2]) ^ times::<3>(s[3]),
        times::<3>(s[0]) ^ s[1] ^ s[2] ^ times::<2>(s[3]),
    ]
}

// FIPS 197, 5.1.3: MixColumns.
pub fn mix_columns(s: [[u8; 4]; 4]) -> [[u8; 4]; 4]
    ensures { result ≡ mix_columns s }
{
    [
        mix_column(s[0]),
        mix_column(s[1]),
        mix_column(s[2]),
        mix_column(s[3]),
    ]
}

// FIPS 197, 5.3.3: one column.
fn inv_mix_column(s: [u8; 4]) -> [u8; 4]
    ensures { result ≡ inv_mix_column s }
{
    [
        times::<0x0e>(s[0]) ^ times::<0x0b>(s[1]) ^ times::<0x0d>(s[2]) ^ times::<0x09>(s[3]),
        times::<0x09>(s[0]) ^ times::<0x0e>(s[1]) ^ times::<0x0b>(s[2]) ^ times::<0x0d>(s[3]),
        times::<0x0d>(s[0]) ^ times::<0x09>(s[1]) ^ times::<0x0e>(s[2]) ^ times::<0x0b>(s[3]),
        times::<0x0b>(s[0]) ^ times::<0x0d>(s[1]) ^ times::<0x09>(s[2]) ^ times::<0x0e>(s[3]),
    ]
}

// FIPS 197, 5.3.3: InvMixColumns.
pub fn inv_mix_columns(s: [[u8; 4]; 4]) -> [[u8; 4]; 4]
    ensures { result ≡ inv_mix_columns s }
{
    [
        inv_mix_column(s[0]),
        inv_mix_column(s[1]),
        inv_mix_column(s[2]),
        inv_mix_column(s[3]),
    ]
}
