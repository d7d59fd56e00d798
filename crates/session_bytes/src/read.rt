// The session in the bytes of a saved one, whatever they hold (rule 8.1).
ghost use Rattle.std.specs.Prelude.{◌≡◌, length};
ghost use Rattle.session_bytes.specs.Saved.{session_size, side_from, phase_from, session_from};

use octets_blocks::array_at;
use octets_numbers::four_byte_number_at;
use session::{Phase, Session, Side};
use session_suite::Suite;

// Of the numbers that `headed` lets pass, so it cannot fail, as a TryFrom would.
fn side_from(n: u8) -> Side
    ensures { result ≡ side_from n }
{
    match n {
        0 => Side::Host,
        _ => Side::Card,
    }
}

// Of the numbers that `headed` lets pass.
fn phase_from(n: u8) -> Phase
    ensures { result ≡ phase_from n }
{
    match n {
        0 => Phase::Ready,
        1 => Phase::Pending,
        _ => Phase::Closed,
    }
}

#[tactic(auto, unfolding(crate::specs::Saved::session_from))]
pub fn session_from(bytes: &[u8], suite: Suite) -> Session
    requires { length bytes.now ≡ session_size }
    ensures { result ≡ session_from bytes.now suite }
{
    Session {
        side: side_from(bytes[3]),
        phase: phase_from(bytes[4]),
        suite,
        count: four_byte_number_at(bytes, 6),
        sk_enc: array_at(bytes, 10),
        sk_mac: array_at(bytes, 42),
        sk_rmac: array_at(bytes, 74),
        command_mcv: array_at(bytes, 106),
        response_mcv: array_at(bytes, 122),
    }
}
