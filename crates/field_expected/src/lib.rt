// What a secure messaging field should hold: which objects, their tags, and their order (rules 5.5 to 5.7).
#![tactic(auto)]

ghost use Rattle.std.specs.Prelude.{◌≡◌};
ghost use Rattle.field_expected.specs.Wanted.{tag_of, need_of, may, rank, allowed};

// The tags: encrypted data, Le, status word, MAC.
pub const TAG_87: u8 = 0x87;

pub const TAG_97: u8 = 0x97;

pub const TAG_99: u8 = 0x99;

pub const TAG_8E: u8 = 0x8E;

// Whether an object must, may or must not be there.
#[derive(Clone, Copy, PartialEq, Eq)]
pub enum Need {
    Must,
    May,
    MustNot,
}

impl Need {
    fn may(self) -> bool
        ensures { result ≡ may self }
    {
        self != Need::MustNot
    }
}

// The object between '87' and '8E': Le ('97') in a command, the status word ('99') in a response, which must be the one given.
#[derive(Clone, Copy)]
pub enum Second {
    Le(Need),
    Status(u8, u8),
}

impl Second {
    pub fn tag(self) -> u8
        ensures { result ≡ tag_of self }
    {
        match self {
            Second::Le(_) => TAG_97,
            Second::Status(_, _) => TAG_99,
        }
    }

    pub fn need(self) -> Need
        ensures { result ≡ need_of self }
    {
        match self {
            Second::Le(need) => need,
            Second::Status(_, _) => Need::Must,
        }
    }

    // A tag's place in the side's list, from 1. It is 0, and no None, where the tag is not in the list: `allowed` then asks both by
    // one comparison.
    pub fn rank(self, tag: u8) -> usize
        ensures { result ≡ rank self tag }
    {
        match tag {
            TAG_87 => 1,
            _ if tag == self.tag() => 2,
            TAG_8E => 3,
            _ => 0,
        }
    }
}

// What a field should hold: whether there is encrypted data, how long it may be, and the second object.
#[derive(Clone, Copy)]
pub struct Wanted {
    pub data: Need,
    pub limit: usize,
    pub second: Second,
}

impl Wanted {
    // Whether an object of that tag may stand after one at place `after` of the side's list.
    pub fn allowed(self, after: usize, tag: u8) -> bool
        ensures { result ≡ allowed self after tag }
    {
        if self.second.rank(tag) <= after {
            return false;
        }
        match tag {
            TAG_87 => self.data.may(),
            TAG_8E => true,
            _ => self.second.need().may(),
        }
    }
}
