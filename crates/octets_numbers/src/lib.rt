// Numbers in two and four bytes, the highest first: read from a buffer, and written into a caller's.
#![tactic(auto)]

ghost use Rattle.std.specs.Prelude.{◌≡◌, ◌+◌, ◌≤◌, length, take, drop};
ghost use Rattle.octets.specs.Write.{Wrote};
ghost use Rattle.octets_numbers.specs.BigEndian.{big_endian, number_in};

use octets::put_bytes;
use octets_blocks::array_at;

// Two functions, as the library has one for each number type: a generic one would need a trait with a method for each.

// The number in the two bytes from index `at` on.
pub fn two_byte_number_at(bytes: &[u8], at: usize) -> u32
    requires { at + 2 ≤ length bytes.now }
    ensures { result ≡ number_in (take 2 (drop at bytes.now)) }
{
    u32::from(u16::from_be_bytes(array_at(bytes, at)))
}

// The number in the four bytes from index `at` on.
pub fn four_byte_number_at(bytes: &[u8], at: usize) -> u32
    requires { at + 4 ≤ length bytes.now }
    ensures { result ≡ number_in (take 4 (drop at bytes.now)) }
{
    u32::from_be_bytes(array_at(bytes, at))
}

// The four bytes of a number at index `at`; the index behind them.
pub fn put_four_byte_number(out: &mut [u8], at: usize, n: u32) -> usize
    requires { at + 4 ≤ length out.old }
    ensures { Wrote out.old at (big_endian 4 n) result out.new }
{
    put_bytes(out, at, &n.to_be_bytes())
}
