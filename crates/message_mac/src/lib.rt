// The MAC of a message (SP 800-73-4 Part 2, 4.2.3 and 4.2.5): the full MAC over the field's bytes where they stand, the eight bytes
// of it that '8E' holds, and the comparison with those received.
#![tactic(auto)]

ghost use Rattle.std.specs.Prelude.{◌≡◌, length, take};
ghost use Rattle.message_mac.specs.MacInput.{encoded_header, response_mac_input, command_mac_input};
ghost use Rattle.message_mac.specs.Same.{same};
ghost use Rattle.session_suite.specs.StoredKeys.{key_in};
ghost use Rattle.mode_cmac.specs.Cmac.{cmac};
ghost use Rattle.message_ciphers.specs.Aes.{ciph};

use apdu::Header;
use message_key::SessionKey;
use mode_cmac::Cmac;
use octets_blocks::array_at;

// The second block of a command's MAC input. CLA is 0C here, for a chained command too.
fn encoded_header(header: Header) -> [u8; 16]
    ensures { result ≡ encoded_header header }
{
    let Header { ins, p1, p2 } = header;
    [0x0C, ins, p1, p2, 0x80, 0, 0, 0, 0, 0, 0, 0, 0, 0, 0, 0]
}

// The full MAC of a command: over its chaining value, its encoded header, and the field's bytes before '8E'.
pub fn command_mac(key: SessionKey, mcv: [u8; 16], header: Header, covered: &[u8]) -> [u8; 16]
    ensures { result ≡ cmac (ciph (key_in key.suite key.bytes)) (command_mac_input mcv header covered.now) }
{
    let key = key.expanded();
    let begun = Cmac::start().absorb(&key, &mcv);
    let headed = begun.absorb(&key, &encoded_header(header));
    headed.absorb(&key, covered).finish(&key)
}

// The full MAC of a response: over its chaining value, and the field's bytes before '8E'.
pub fn response_mac(key: SessionKey, mcv: [u8; 16], covered: &[u8]) -> [u8; 16]
    ensures { result ≡ cmac (ciph (key_in key.suite key.bytes)) (response_mac_input mcv covered.now) }
{
    let key = key.expanded();
    let chained = Cmac::start().absorb(&key, &mcv);
    chained.absorb(&key, covered).finish(&key)
}

// The eight bytes of '8E': the first ones of the full MAC.
pub fn truncated(full: [u8; 16]) -> [u8; 8]
    ensures { result ≡ take 8 full }
{
    array_at(&full, 0)
}

// Whether the eight bytes received are the MAC. All eight are looked at, whatever the first of them are.
pub fn mac_matches(received: &[u8], mac: [u8; 8]) -> bool
    requires { length received.now ≡ 8 }
    ensures { result ≡ same received.now mac }
{
    let mut differ = 0;
    for i in 0..8 {
        differ |= received[i] ^ mac[i];
    }
    differ == 0
}
