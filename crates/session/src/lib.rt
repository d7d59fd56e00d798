// The session of secure messaging: a value that each call takes and gives back (rules 3.1 to 3.4).
#![tactic(auto)]

ghost use Rattle.std.specs.Prelude.{◌≡◌, Some};
ghost use Rattle.session_suite.specs.StoredKeys.{KeysOfBytes, keys};
ghost use Rattle.session.specs.Session.{fresh, closed, closed_at, no_session};
ghost use Rattle.session.specs.Opening.{not_opened, open_suite, opening};

use refusal::{Answered, Refusal};
use session_suite::{Suite, keys_fit, stored, suite_of};

#[derive(Clone, Copy, PartialEq, Eq)]
pub enum Side {
    Host = 0,
    Card = 1,
}

#[derive(Clone, Copy, PartialEq, Eq)]
pub enum Phase {
    Ready = 0,
    // A command is outstanding: the host waits for its response, the card is to wrap it.
    Pending = 1,
    Closed = 2,
}

#[derive(Clone, Copy)]
pub struct Session {
    pub side: Side,
    pub phase: Phase,
    pub suite: Suite,
    // Commands wrapped, at the host, or accepted, at the card.
    pub count: u32,
    // The session keys, those of CS2 followed by 16 zeros.
    pub sk_enc: [u8; 32],
    pub sk_mac: [u8; 32],
    pub sk_rmac: [u8; 32],
    // The MAC chaining values.
    pub command_mcv: [u8; 16],
    pub response_mcv: [u8; 16],
}

impl Session {
    pub const STARTING_COUNT: u32 = 0;

    pub const STARTING_MCV: [u8; 16] = [0; 16];

    // The most commands of a session.
    pub const COMMAND_LIMIT: u32 = 65535;

    pub fn fresh(
        side: Side,
        suite: Suite,
        sk_enc: [u8; 32],
        sk_mac: [u8; 32],
        sk_rmac: [u8; 32],
    ) -> Session
        ensures { result ≡ fresh side suite sk_enc sk_mac sk_rmac }
    {
        Session {
            side,
            phase: Phase::Ready,
            suite,
            count: Session::STARTING_COUNT,
            sk_enc,
            sk_mac,
            sk_rmac,
            command_mcv: Session::STARTING_MCV,
            response_mcv: Session::STARTING_MCV,
        }
    }

    // Nothing is left but side and suite.
    pub fn closed_at(side: Side, suite: Suite) -> Session
        ensures { result ≡ closed_at side suite }
    {
        Session {
            side,
            phase: Phase::Closed,
            suite,
            count: 0,
            sk_enc: [0; 32],
            sk_mac: [0; 32],
            sk_rmac: [0; 32],
            command_mcv: [0; 16],
            response_mcv: [0; 16],
        }
    }

    // What stands where there is no session.
    pub fn none(side: Side) -> Session
        ensures { result ≡ no_session side }
    {
        Session::closed_at(side, Suite::Cs2)
    }

    // Side and suite stay; keys, count and chaining values become zero.
    pub fn close(self) -> Session
        ensures { result ≡ closed self }
    {
        Session::closed_at(self.side, self.suite)
    }

    // The host's opening: refusals 11 and 12. It and the card's are two names of one function over the side, since C and the
    // theorems of an opening have a call for each side.
    pub fn open_host(
        suite: u32,
        sk_enc: &[u8],
        sk_mac: &[u8],
        sk_rmac: &[u8],
    ) -> Answered<(), Session>
        ensures opened { result ≡ opening Side.Host suite (keys sk_enc.now sk_mac.now sk_rmac.now) }
        ensures bytes { KeysOfBytes (keys sk_enc.now sk_mac.now sk_rmac.now) }
    {
        open_session(Side::Host, suite, sk_enc, sk_mac, sk_rmac)
    }

    // The card's opening: refusals 11 and 12.
    pub fn open_card(
        suite: u32,
        sk_enc: &[u8],
        sk_mac: &[u8],
        sk_rmac: &[u8],
    ) -> Answered<(), Session>
        ensures opened { result ≡ opening Side.Card suite (keys sk_enc.now sk_mac.now sk_rmac.now) }
        ensures bytes { KeysOfBytes (keys sk_enc.now sk_mac.now sk_rmac.now) }
    {
        open_session(Side::Card, suite, sk_enc, sk_mac, sk_rmac)
    }
}

// A refused opening, and what stands for no session.
fn not_opened(side: Side, refusal: Refusal) -> Answered<(), Session>
    ensures { result ≡ not_opened side refusal }
{
    Answered {
        answer: Err(refusal),
        next: Session::none(side),
    }
}

#[tactic(auto, unfolding(crate::specs::Opening::open_suite))]
fn open_suite(
    side: Side,
    suite: Suite,
    enc: &[u8],
    mac: &[u8],
    rmac: &[u8],
) -> Answered<(), Session>
    ensures { result ≡ open_suite side (Some suite) (keys enc.now mac.now rmac.now) }
{
    if keys_fit(suite.key_length(), enc, mac, rmac) {
        Answered {
            answer: Ok(()),
            next: Session::fresh(side, suite, stored(enc), stored(mac), stored(rmac)),
        }
    } else {
        not_opened(side, Refusal::BadKeyLength)
    }
}

#[tactic(auto, unfolding(crate::specs::Opening::open_suite, crate::specs::Opening::opening))]
fn open_session(
    side: Side,
    suite: u32,
    enc: &[u8],
    mac: &[u8],
    rmac: &[u8],
) -> Answered<(), Session>
    ensures opened { result ≡ opening side suite (keys enc.now mac.now rmac.now) }
    ensures bytes { KeysOfBytes (keys enc.now mac.now rmac.now) }
{
    match suite_of(suite) {
        Some(known) => open_suite(side, known, enc, mac, rmac),
        None => not_opened(side, Refusal::UnknownSuite),
    }
}
