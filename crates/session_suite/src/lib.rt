// The cipher suites with their numbers and key lengths, and the session keys: as they are handed in, and in the 32 bytes that a
// session stores.
#![tactic(auto)]

ghost use Rattle.std.specs.Prelude.{◌≡◌, ◌≤◌, length};
ghost use Rattle.session_suite.specs.Suites.{key_length, number, suite_of};
ghost use Rattle.session_suite.specs.StoredKeys.{keys, keys_fit, stored};

// The cipher suites of SP 800-73-4 Part 2, Table 14, with their numbers.
#[derive(Clone, Copy, PartialEq, Eq)]
pub enum Suite {
    Cs2 = 2,
    Cs7 = 7,
}

// The suite of that number. An Option and no TryFrom: an error type of its own would say nothing, since opening answers 11
// and reading 16.
pub fn suite_of(n: u32) -> Option<Suite>
    ensures { result ≡ suite_of n }
{
    match n {
        2 => Some(Suite::Cs2),
        7 => Some(Suite::Cs7),
        _ => None,
    }
}

impl Suite {
    // The length of each session key.
    pub fn key_length(self) -> usize
        ensures { result ≡ key_length self }
    {
        match self {
            Suite::Cs2 => 16,
            Suite::Cs7 => 32,
        }
    }

    pub fn number(self) -> u8
        ensures { result ≡ number self }
    {
        self as u8
    }
}

// A key in its 32 bytes.
pub fn stored(key: &[u8]) -> [u8; 32]
    requires { length key.now ≤ 32 }
    ensures { result ≡ stored key.now }
{
    let mut bytes = [0u8; 32];
    bytes[..key.len()].copy_from_slice(key);
    bytes
}

// Whether each key has n bytes. The three keys are parameters: in a struct of three references, each clause would name a key
// by `given.entry.enc.now`, which is no plainer.
#[tactic(auto, unfolding(crate::specs::StoredKeys::keys_fit))]
pub fn keys_fit(n: usize, enc: &[u8], mac: &[u8], rmac: &[u8]) -> bool
    ensures { result ≡ keys_fit n (keys enc.now mac.now rmac.now) }
{
    enc.len() == n && mac.len() == n && rmac.len() == n
}
