// The session of a call from C: read from the start of a buffer that the caller keeps, and the next one written there where it is another one.
#![tactic(auto)]

ghost use Rattle.std.specs.Prelude.{◌≡◌, ◌≤◌, length};
ghost use Rattle.octets.specs.Bytes.{IsBytes};
ghost use Rattle.session_bytes.specs.Saved.{session_size};
ghost use Rattle.capi_session.specs.SessionBytes.{held_in, session_in, changes, replaced};

use refusal::Refusal;
use session::Session;
use session_bytes::{decode, put_session};

// Each call from C joins the next two by itself. Tried: one function that takes the call as a closure; the proof did not close at what the caller's
// buffer holds after it, which the closure writes.

// Reads the session of `len` bytes. A length beyond the buffer is a session that can't be read.
#[tactic(auto, unfolding(crate::specs::SessionBytes::session_in))]
pub fn session_in(held: &[u8], len: usize) -> Result<Session, Refusal>
    ensures decoded { result ≡ session_in (held_in held.now len) }
    ensures bytes { IsBytes held.now }
{
    match held.get(..len) {
        Some(bytes) => decode(bytes),
        None => Err(Refusal::BadSession),
    }
}

// Puts the next session and its length in the place of the one that was read. After a refusal that keeps the session nothing is written, not even
// the same bytes again: they may stand in memory that can't be written, or be read by another thread. It takes the call's number and no Result, as
// the definition of what a call leaves has it: the number that C is given decides.
pub fn replace_session(number: u32, next: Session, held: &mut [u8], len: &mut usize)
    requires { session_size ≤ length held.old }
    ensures { held_in held.new len.new
        ≡ replaced number next (held_in held.old len.old) }
{
    if changes(number) {
        *len = put_session(next, held);
    }
}

// Whether a call with this result leaves another session.
fn changes(number: u32) -> bool
    ensures { result ≡ changes number }
{
    number == 0 || number == Refusal::BadMac.number() || number == Refusal::BadPadding.number()
}
