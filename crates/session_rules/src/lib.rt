// Whether a session value keeps rules 8.2 to 8.5: one that breaks them counts as closed.
#![tactic(auto)]

mod zeros;

ghost use Rattle.std.specs.Prelude.{◌≡◌};
ghost use Rattle.session_rules.specs.Valid.{keeps_phase, valid, is_open};

use session::{Phase, Session};
use zeros::{all_zero, keys_end, keys_zero, mcvs_zero};

// Count 0 needs both chaining values zero.
#[tactic(auto, unfolding(crate::specs::Valid::keeps_phase))]
fn keeps_ready(session: Session) -> bool
    ensures { result ≡ keeps_phase session Phase.Ready }
{
    keys_end(session) && (session.count != 0 || mcvs_zero(session))
}

// Count 1 needs the response's chaining value zero.
#[tactic(auto, unfolding(crate::specs::Valid::keeps_phase))]
fn keeps_pending(session: Session) -> bool
    ensures { result ≡ keeps_phase session Phase.Pending }
{
    keys_end(session)
        && session.count >= 1
        && (session.count != 1 || all_zero(&session.response_mcv))
}

// All after the suite is zero.
#[tactic(auto, unfolding(crate::specs::Valid::keeps_phase))]
fn keeps_closed(session: Session) -> bool
    ensures { result ≡ keeps_phase session Phase.Closed }
{
    session.count == 0 && keys_zero(session) && mcvs_zero(session)
}

#[tactic(auto, unfolding(crate::specs::Valid::valid))]
pub fn valid(session: Session) -> bool
    ensures { result ≡ valid session }
{
    session.count <= Session::COMMAND_LIMIT
        && match session.phase {
            Phase::Ready => keeps_ready(session),
            Phase::Pending => keeps_pending(session),
            Phase::Closed => keeps_closed(session),
        }
}

// Whether calls are served with a session that keeps the rules and is in that phase.
pub fn is_open(phase: Phase) -> bool
    ensures { result ≡ is_open phase }
{
    phase != Phase::Closed
}
