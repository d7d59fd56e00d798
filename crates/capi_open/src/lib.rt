// Opening a session, for programs in C (c/include/pivsm.h), which has a call for each side.
#![tactic(auto)]

ghost use Rattle.std.specs.Prelude.{true, ◌≡◌, length};
ghost use Rattle.session_suite.specs.StoredKeys.{KeysOfBytes, keys};
ghost use Rattle.session_rules.specs.Valid.{valid};
ghost use Rattle.capi_values.specs.Values.{refusal_values};
ghost use Rattle.capi_open.specs.Call.{given, left, OpenedValid, saved, leaves, leaves_opened, pivsm_open_host, pivsm_open_card};

use refusal::{Answered, Refusal};
use session::Session;
use session_bytes::{SIZE, encode};

// Refusals 11, 12 and 6. `bytes` is what the types say of the arguments; the demands use it.
pub fn pivsm_open_host(
    suite: u32,
    enc: &[u8],
    mac: &[u8],
    rmac: &[u8],
    session: &mut [u8],
    len: &mut usize,
) -> u32
    ensures call { left result session.new len.new
        ≡ pivsm_open_host (given suite enc.now mac.now rmac.now
        session.old) }
    ensures bytes { KeysOfBytes (keys enc.now mac.now rmac.now) }
{
    put_opened(Session::open_host(suite, enc, mac, rmac), session, len)
}

// Refusals 11, 12 and 6.
pub fn pivsm_open_card(
    suite: u32,
    enc: &[u8],
    mac: &[u8],
    rmac: &[u8],
    session: &mut [u8],
    len: &mut usize,
) -> u32
    ensures call { left result session.new len.new
        ≡ pivsm_open_card (given suite enc.now mac.now rmac.now
        session.old) }
    ensures bytes { KeysOfBytes (keys enc.now mac.now rmac.now) }
{
    put_opened(Session::open_card(suite, enc, mac, rmac), session, len)
}

// Saves a session that was opened.
fn put_opened(opened: Answered<(), Session>, session: &mut [u8], len: &mut usize) -> u32
    requires { OpenedValid opened }
    ensures { left result session.new len.new
        ≡ leaves_opened session.old opened }
{
    match opened.answer {
        Ok(()) => put_saved(opened.next, session, len),
        Err(refusal) => put_refused(refusal, len),
    }
}

// Saves a session that keeps the rules, so its saving is refused for lack of room alone.
fn put_saved(fresh: Session, session: &mut [u8], len: &mut usize) -> u32
    requires { valid fresh ≡ true }
    ensures { left result session.new len.new
        ≡ leaves session.old (saved fresh (length session.old)) }
{
    match encode(fresh, session) {
        Ok(()) => {
            *len = SIZE;
            0
        }
        Err(no_room) => put_refused(no_room, len),
    }
}

// Gives the numbers of a refusal.
fn put_refused(refusal: Refusal, len: &mut usize) -> u32
    ensures number { result ≡ (refusal_values refusal).number }
    ensures len { len.new ≡ (refusal_values refusal).len }
{
    *len = refusal.size();
    refusal.number()
}
