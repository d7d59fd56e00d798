// FIPS 197's S-box and its inverse as tables, and the S-box by its rule, which the tests hold the table to.
#![tactic(auto)]

mod tables;

ghost use Rattle.std.specs.Prelude.{◌≡◌, ◌%◌};
ghost use Rattle.std.specs.Int.Bits.{bit_and};
ghost use Rattle.std.specs.Int.Count.{ones};
ghost use Rattle.aes_sbox.specs.SBox.{IsTable, s_box, inv_s_box, affine};
ghost use Rattle.aes_inverses.specs.Inverse.{powers, inverse};

use aes_gf::multiply;
use tables::{INV_SBOX, SBOX};

// One function for each table, and an array, not a struct that holds its rule: the rule would be a type for each table.

// The S-box's table. A caller that looks up many bytes takes it once and lends it.
pub fn sbox() -> [u8; 256]
    ensures { IsTable s_box result }
{
    SBOX
}

// The inverse S-box's table.
pub fn inv_sbox() -> [u8; 256]
    ensures { IsTable inv_s_box result }
{
    INV_SBOX
}

// b to the power 2^n - 1.
fn powers(n: usize, b: u8) -> u8
    ensures { result ≡ powers n b }
{
    if n == 0 {
        return 1;
    }
    multiply(b, powers(n - 1, multiply(b, b)))
}

// b^254: the multiplicative inverse, and 0 at 0.
fn inverse(b: u8) -> u8
    ensures { result ≡ inverse b }
{
    powers(7, multiply(b, b))
}

// The sum modulo 2 of the bits of b that the mask selects.
fn parity(b: u8, mask: u8) -> u8
    ensures { result ≡ ones (bit_and b mask) % 2 }
{
    (u8::count_ones(b & mask) % 2) as u8
}

// Bit i of the result is the sum of bits i, i+4, i+5, i+6, i+7 of b: the mask of bit 0, turned left by i.
fn affine(b: u8) -> u8
    ensures { result ≡ affine b }
{
    let low = parity(b, 0xf1) + parity(b, 0xe3) * 2 + parity(b, 0xc7) * 4 + parity(b, 0x8f) * 8;
    let high = parity(b, 0x1f) * 16
        + parity(b, 0x3e) * 32
        + parity(b, 0x7c) * 64
        + parity(b, 0xf8) * 128;
    (low + high) ^ 0x63
}

// The S-box by its rule, with no table.
pub fn sbox_rule(b: u8) -> u8
    ensures { result ≡ s_box b }
{
    affine(inverse(b))
}
