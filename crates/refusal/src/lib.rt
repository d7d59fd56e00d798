// The refusals of rule 2.1, one for each number, and what a call gives that may refuse.
#![tactic(auto)]

ghost use Rattle.std.specs.Prelude.{◌≡◌};
ghost use Rattle.refusal.specs.Refusal.{number, size, status};

use apdu::StatusWord;

#[derive(Clone, Copy, PartialEq, Eq)]
pub enum Refusal {
    SessionClosed,
    OutOfTurn,
    NotPermitted,
    TooLong,
    CommandLimit,
    // The size that the caller's buffer should have.
    BufferTooSmall(usize),
    Malformed,
    MissingObject,
    BadMac,
    BadPadding,
    UnknownSuite,
    BadKeyLength,
    // The status word, which nothing vouches for.
    Unprotected(StatusWord),
    BrokenChain,
    FragmentTooLong,
    BadSession,
}

// What a call answers, and the state that it leaves: a session or a chain.
#[derive(Clone, Copy)]
pub struct Answered<T, S> {
    pub answer: Result<T, Refusal>,
    pub next: S,
}

impl Refusal {
    // A match, since `as` gives no number of an enum whose variants hold values.
    pub fn number(self) -> u32
        ensures { result ≡ number self }
    {
        match self {
            Refusal::SessionClosed => 1,
            Refusal::OutOfTurn => 2,
            Refusal::NotPermitted => 3,
            Refusal::TooLong => 4,
            Refusal::CommandLimit => 5,
            Refusal::BufferTooSmall(_) => 6,
            Refusal::Malformed => 7,
            Refusal::MissingObject => 8,
            Refusal::BadMac => 9,
            Refusal::BadPadding => 10,
            Refusal::UnknownSuite => 11,
            Refusal::BadKeyLength => 12,
            Refusal::Unprotected(_) => 13,
            Refusal::BrokenChain => 14,
            Refusal::FragmentTooLong => 15,
            Refusal::BadSession => 16,
        }
    }

    // The size that the caller's buffer should have.
    pub fn size(self) -> usize
        ensures { result ≡ size self }
    {
        match self {
            Refusal::BufferTooSmall(size) => size,
            _ => 0,
        }
    }

    // The status word, unverified.
    pub fn status(self) -> u16
        ensures { result ≡ status self }
    {
        match self {
            Refusal::Unprotected(sw) => sw.number(),
            _ => 0,
        }
    }
}
