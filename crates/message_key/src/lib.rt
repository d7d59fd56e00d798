// The session keys as AES takes them.
#![tactic(auto)]

ghost use Rattle.std.specs.Prelude.{◌≡◌};
ghost use Rattle.aes_key_expansion.specs.ExpandedKey.{expanded_key};
ghost use Rattle.message_key.specs.SessionKeys.{key_size};

use aes_key_expansion::{ExpandedKey, KeySize};
use session_suite::Suite;

// CS2 uses AES-128, CS7 AES-256.
pub fn key_size(suite: Suite) -> KeySize
    ensures { result ≡ key_size suite }
{
    match suite {
        Suite::Cs2 => KeySize::Aes128,
        Suite::Cs7 => KeySize::Aes256,
    }
}

// A key of that suite, in the 32 bytes that a session stores it in.
#[derive(Clone, Copy)]
pub struct SessionKey {
    pub suite: Suite,
    pub bytes: [u8; 32],
}

impl SessionKey {
    // Made ready for the rounds of its suite's AES.
    pub fn expanded(self) -> ExpandedKey
        ensures { result ≡ expanded_key (key_size self.suite) self.bytes }
    {
        ExpandedKey::new(key_size(self.suite), self.bytes)
    }
}
