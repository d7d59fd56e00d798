// What stands in the clear in an APDU (ISO/IEC 7816-4): the header of a command, and the status word of a response.
#![tactic(auto)]

ghost use Rattle.std.specs.Prelude.{◌≡◌};
ghost use Rattle.apdu.specs.Apdu.{status_word, status_of};

// CLA is not in it: the same command has 1C on all its fragments but the last, which has 0C.
#[derive(Clone, Copy, PartialEq, Eq)]
pub struct Header {
    pub ins: u8,
    pub p1: u8,
    pub p2: u8,
}

#[derive(Clone, Copy, PartialEq, Eq)]
pub struct StatusWord {
    pub sw1: u8,
    pub sw2: u8,
}

impl StatusWord {
    // SW1 is the high byte.
    pub fn number(self) -> u16
        ensures { result ≡ status_word self }
    {
        u16::from_be_bytes([self.sw1, self.sw2])
    }
}

// The status word that a number stands for.
impl From<u16> for StatusWord {
    ghost from_gives = { λ n sw. sw ≡ status_of n };

    fn from(n: u16) -> StatusWord {
        let [sw1, sw2] = n.to_be_bytes();
        StatusWord { sw1, sw2 }
    }
}
