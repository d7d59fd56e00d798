// The data objects of a secure messaging field, written in the side's order (SP 800-73-4 Part 2, 4.2). The caller checks the room
// once, before the first byte, with command_length or response_length of field_size.
#![tactic(auto)]

ghost use Rattle.std.specs.Prelude.{◌+◌, ◌≤◌, ◌<◌, length, [], ◌∷◌, ◌++◌};
ghost use Rattle.octets.specs.Write.{Wrote};
ghost use Rattle.field_write.specs.Objects.{le_object, mac_object, encrypted_data, command_objects, response_objects};
ghost use Rattle.field_ber_length.specs.Length.{length_field};
ghost use Rattle.field_expected.specs.Wanted.{tag87};

use field_ber_length::put_length;
use field_expected::{TAG_8E, TAG_87, TAG_97, TAG_99};
use octets::{put_byte, put_bytes};

// Tag, length and padding-content indicator byte of e bytes of encrypted data.
fn put_data_header(out: &mut [u8], at: usize, e: usize) -> usize
    requires { (e < 65535) × (at + 2 + length (length_field (e + 1)) ≤ length out.old) }
    ensures { Wrote out.old at (tag87 ∷ [] ++ length_field (e + 1) ++ 0x01 ∷ []) result out.new }
{
    let n = put_byte(out, at, TAG_87);
    let v = put_length(out, n, e + 1);
    put_byte(out, v, 0x01)
}

// The object '87'; nothing where there is no encrypted data.
fn put_encrypted_data(out: &mut [u8], at: usize, ciphertext: &[u8]) -> usize
    requires { (length ciphertext.now < 65535) × (at + length (encrypted_data ciphertext.now) ≤ length out.old) }
    ensures { Wrote out.old at (encrypted_data ciphertext.now) result out.new }
{
    if ciphertext.is_empty() {
        return at;
    }
    let n = put_data_header(out, at, ciphertext.len());
    put_bytes(out, n, ciphertext)
}

// The object '97', where Le is present.
fn put_le(out: &mut [u8], at: usize, le: bool) -> usize
    requires { at + length (le_object le) ≤ length out.old }
    ensures { Wrote out.old at (le_object le) result out.new }
{
    if le {
        return put_bytes(out, at, &[TAG_97, 0x01, 0x00]);
    }
    at
}

// The objects that a command's MAC covers, from index 0 on; the index behind them.
pub fn put_command_objects(out: &mut [u8], ciphertext: &[u8], le: bool) -> usize
    requires { (length ciphertext.now < 65535) × (length (command_objects ciphertext.now le) ≤ length out.old) }
    ensures { Wrote out.old 0 (command_objects ciphertext.now le) result out.new }
{
    let n = put_encrypted_data(out, 0, ciphertext);
    put_le(out, n, le)
}

// The objects that a response's MAC covers, from index 0 on; the index behind them.
pub fn put_response_objects(out: &mut [u8], ciphertext: &[u8], sw1: u8, sw2: u8) -> usize
    requires { (length ciphertext.now < 65535) × (length (response_objects ciphertext.now sw1 sw2) ≤ length out.old) }
    ensures { Wrote out.old 0 (response_objects ciphertext.now sw1 sw2) result out.new }
{
    let n = put_encrypted_data(out, 0, ciphertext);
    put_bytes(out, n, &[TAG_99, 0x02, sw1, sw2])
}

// The MAC's object, last in a field; the index behind it.
pub fn put_mac(out: &mut [u8], at: usize, mac: [u8; 8]) -> usize
    requires { at + 10 ≤ length out.old }
    ensures { Wrote out.old at (mac_object mac) result out.new }
{
    let n = put_bytes(out, at, &[TAG_8E, 0x08]);
    put_bytes(out, n, &mac)
}
