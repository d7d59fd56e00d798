// The lengths of BER-TLV data objects (SP 800-73-4 Part 2, 4.2.1). The shortest form is written. Any form of one to three bytes is
// read; whether it was the shortest is asked apart.
#![tactic(auto)]

ghost use Rattle.std.specs.Prelude.{◌≡◌, length, ◌+◌, ◌<◌, ◌≤◌};
ghost use Rattle.field_ber_length.specs.Length.{length_field, is_shortest, read_length};
ghost use Rattle.octets.specs.Write.{Wrote};

use octets::put_bytes;

// A length field that was read: the length, and how many bytes the field has.
#[derive(Clone, Copy)]
pub struct LengthField {
    pub length: usize,
    pub size: usize,
}

impl LengthField {
    // Whether the length stood in its shortest form.
    pub fn is_shortest(self) -> bool
        ensures { result ≡ is_shortest self.length self.size }
    {
        self.size == length_size(self.length)
    }
}

// The size of n's shortest length field.
pub fn length_size(n: usize) -> usize
    ensures { result ≡ length (length_field n) }
{
    match n {
        ..=127 => 1,
        ..=255 => 2,
        _ => 3,
    }
}

// Writes n's shortest length field; the index behind it.
pub fn put_length(out: &mut [u8], at: usize, n: usize) -> usize
    requires { (n < 65536) × (at + length (length_field n) ≤ length out.old) }
    ensures { Wrote out.old at (length_field n) result out.new }
{
    let [high, low] = (n as u16).to_be_bytes();
    match n {
        ..=127 => put_bytes(out, at, &[low]),
        ..=255 => put_bytes(out, at, &[0x81, low]),
        _ => put_bytes(out, at, &[0x82, high, low]),
    }
}

// The length whose field starts at index `at`, in any form of one to three bytes.
pub fn read_length(bytes: &[u8], at: usize) -> Option<LengthField>
    ensures { result ≡ read_length bytes.now at }
{
    match bytes.get(at..)? {
        [first, ..] if *first < 128 => Some(LengthField {
            length: usize::from(*first),
            size: 1,
        }),
        [0x81, low, ..] => Some(LengthField {
            length: usize::from(*low),
            size: 2,
        }),
        [0x82, high, low, ..] => Some(LengthField {
            length: usize::from(u16::from_be_bytes([*high, *low])),
            size: 3,
        }),
        _ => None,
    }
}
