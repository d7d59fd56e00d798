// Whose turn it is, and the session after a command and after its response (rule 3.3).
#![tactic(auto)]

ghost use Rattle.std.specs.Prelude.{◌≡◌, ◌<◌};
ghost use Rattle.session_turn.specs.Turn.{is_turn};
ghost use Rattle.session_turn.specs.Transitions.{command_taken, response_taken};

use session::{Phase, Session, Side};

// Whether a call that is made at that side, in that phase, is in turn for a session whose own side and phase these are.
#[tactic(auto, unfolding(crate::specs::Turn::is_turn))]
pub fn is_turn(side: Side, phase: Phase, own: Side, current: Phase) -> bool
    ensures { result ≡ is_turn side phase own current }
{
    own == side && current == phase
}

// After a command wrapped, at the host, or accepted, at the card.
pub fn command_taken(session: Session, mcv: [u8; 16]) -> Session
    requires { session.count < 65535 }
    ensures { result ≡ command_taken session mcv }
{
    Session {
        phase: Phase::Pending,
        count: session.count + 1,
        command_mcv: mcv,
        ..session
    }
}

// After its response wrapped, at the card, or accepted, at the host.
pub fn response_taken(session: Session, mcv: [u8; 16]) -> Session
    ensures { result ≡ response_taken session mcv }
{
    Session {
        phase: Phase::Ready,
        response_mcv: mcv,
        ..session
    }
}
