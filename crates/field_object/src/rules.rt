// The length and the value that an object of a field must have (rules 5.10 to 5.12).
ghost use Rattle.std.specs.Prelude.{◌≡◌, ◌+◌, get_or};
ghost use Rattle.field_object.specs.Values.{right_second, right_value, size_of, right_size};

use field_expected::{Second, TAG_8E, TAG_87, Wanted};

fn second_size(second: Second) -> usize
    ensures { result ≡ size_of second }
{
    match second {
        Second::Le(_) => 1,
        Second::Status(_, _) => 2,
    }
}

// Whether n is a length of the object of that tag.
pub fn right_size(wanted: Wanted, tag: u8, n: usize) -> bool
    ensures { result ≡ right_size wanted tag n }
{
    match tag {
        TAG_87 => 17 <= n && (n - 1) % 16 == 0 && n - 1 <= wanted.limit,
        TAG_8E => n == 8,
        _ => n == second_size(wanted.second),
    }
}

fn byte_at(bytes: &[u8], at: usize) -> u8
    ensures { result ≡ get_or bytes.now at 0 }
{
    bytes.get(at).copied().unwrap_or(0)
}

fn byte_after(bytes: &[u8], at: usize) -> u8
    ensures { result ≡ get_or bytes.now (at + 1) 0 }
{
    if at < bytes.len() {
        return byte_at(bytes, at + 1);
    }
    0
}

fn right_second(second: Second, bytes: &[u8], at: usize) -> bool
    ensures { result ≡ right_second second bytes.now at }
{
    match second {
        Second::Le(_) => byte_at(bytes, at) == 0,
        Second::Status(sw1, sw2) => byte_at(bytes, at) == sw1 && byte_after(bytes, at) == sw2,
    }
}

// Whether the value at index `at` is one of the object of that tag.
pub fn right_value(wanted: Wanted, tag: u8, bytes: &[u8], at: usize) -> bool
    ensures { result ≡ right_value wanted tag bytes.now at }
{
    match tag {
        TAG_87 => byte_at(bytes, at) == 1,
        TAG_8E => true,
        _ => right_second(wanted.second, bytes, at),
    }
}
