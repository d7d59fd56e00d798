// The padding of command and response data (SP 800-73-4 Part 2, 4.2.2): written, and the data's length found again.
#![tactic(auto)]

ghost use Rattle.std.specs.Prelude.{◌≡◌, ◌+◌, ◌<◌, ◌≤◌, length};
ghost use Rattle.octets.specs.Write.{Wrote};
ghost use Rattle.field_padding.specs.Padding.{padding, padded_length, marked, unpad};

use octets::{put_byte, put_zeros};

// The length of p bytes of data with their padding.
pub fn padded_length(p: usize) -> usize
    requires { p < 65536 }
    ensures { result ≡ padded_length p }
{
    16 * (p / 16 + 1)
}

// Writes the padding of p bytes of data; the index behind it.
pub fn put_padding(out: &mut [u8], at: usize, p: usize) -> usize
    requires { at + length (padding p) ≤ length out.old }
    ensures { Wrote out.old at (padding p) result out.new }
{
    let n = 15 - p % 16;
    let next = put_byte(out, at, 0x80);
    put_zeros(out, next, n)
}

// The last byte that isn't zero, at index n, must be '80', with data before it.
fn marked(b: u8, n: usize) -> Option<usize>
    ensures { result ≡ marked b n }
{
    if b == 0x80 && n != 0 { Some(n) } else { None }
}

// Where the data of a padded string ends. Nothing before the last 16 bytes is looked at.
pub fn unpad(bytes: &[u8]) -> Option<usize>
    ensures { result ≡ unpad bytes.now }
{
    let start = bytes.len().saturating_sub(16);
    for n in (start..bytes.len()).rev() {
        if bytes[n] != 0 {
            return marked(bytes[n], n);
        }
    }
    None
}
