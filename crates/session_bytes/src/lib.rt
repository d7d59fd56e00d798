// The session as 138 bytes (rule 8.1): written, read, and saved.
#![tactic(auto)]

mod read;

ghost use Rattle.std.specs.Prelude.{◌≡◌, ◌+◌, ◌≤◌, length};
ghost use Rattle.octets.specs.Write.{Wrote};
ghost use Rattle.session_bytes.specs.Saved.{session_size, side_number, phase_number, header, keys, mcvs, encode, headed, decode};
ghost use Rattle.octets.specs.Bytes.{IsBytes};
ghost use Rattle.session_bytes.specs.Saving.{encoding, encoded_in};

use octets::put_bytes;
use octets_numbers::{put_four_byte_number, two_byte_number_at};
use read::session_from;
use refusal::Refusal;
use session::{Phase, Session, Side};
use session_rules::valid;
use session_suite::suite_of;

// The length of a saved session.
pub const SIZE: usize = 138;

// The length of what stands behind the two bytes that tell it.
const REST: u16 = SIZE as u16 - 2;

const VERSION: u8 = 0x01;

// Saves a session: refusals 1 and 6. It is for callers that keep a Session, and for the openings from C: the other calls from C hold a
// session as bytes, and put the next one back by put_session where they have shown the room and the rules.
#[tactic(auto, unfolding(crate::specs::Saving::encoding, crate::specs::Saving::encoded_in))]
pub fn encode(session: Session, out: &mut [u8]) -> Result<(), Refusal>
    ensures answer { result ≡ encoding session (length out.old) }
    ensures output { out.new ≡ encoded_in out.old result session }
{
    if !valid(session) {
        return Err(Refusal::SessionClosed);
    }
    if out.len() < SIZE {
        return Err(Refusal::BufferTooSmall(SIZE));
    }
    put_session(session, out);
    Ok(())
}

// Writes any session; the caller has the room.
pub fn put_session(session: Session, out: &mut [u8]) -> usize
    requires { session_size ≤ length out.old }
    ensures { Wrote out.old 0 (encode session) result out.new }
{
    let k = put_header(session, out);
    let m = put_keys(session, out, k);
    put_mcvs(session, out, m)
}

fn put_header(session: Session, out: &mut [u8]) -> usize
    requires { 10 ≤ length out.old }
    ensures { Wrote out.old 0 (header session) result out.new }
{
    let kind = [
        VERSION,
        side_number(session.side),
        phase_number(session.phase),
        session.suite.number(),
    ];
    let k = put_bytes(out, 0, &REST.to_be_bytes());
    let n = put_bytes(out, k, &kind);
    put_four_byte_number(out, n, session.count)
}

// A side and a phase as numbers of rule 8.1. A `From` would have to stand in the crate of the enums, away from the saved form.
fn side_number(side: Side) -> u8
    ensures { result ≡ side_number side }
{
    side as u8
}

fn phase_number(phase: Phase) -> u8
    ensures { result ≡ phase_number phase }
{
    phase as u8
}

fn put_keys(session: Session, out: &mut [u8], at: usize) -> usize
    requires { at + 96 ≤ length out.old }
    ensures { Wrote out.old at (keys session) result out.new }
{
    let m = put_bytes(out, at, &session.sk_enc);
    let r = put_bytes(out, m, &session.sk_mac);
    put_bytes(out, r, &session.sk_rmac)
}

fn put_mcvs(session: Session, out: &mut [u8], at: usize) -> usize
    requires { at + 32 ≤ length out.old }
    ensures { Wrote out.old at (mcvs session) result out.new }
{
    let r = put_bytes(out, at, &session.command_mcv);
    put_bytes(out, r, &session.response_mcv)
}

// Reads a saved session: refusal 16. A session that breaks the rules is not read.
#[tactic(auto, unfolding(crate::specs::Saved::decode, crate::specs::Saved::decode_suite, crate::specs::Saved::accepted))]
pub fn decode(bytes: &[u8]) -> Result<Session, Refusal>
    ensures decoded { result ≡ decode bytes.now }
    ensures bytes { IsBytes bytes.now }
{
    if !headed(bytes) {
        return Err(Refusal::BadSession);
    }
    let Some(suite) = suite_of(u32::from(bytes[5])) else {
        return Err(Refusal::BadSession);
    };
    let session = session_from(bytes, suite);
    if valid(session) {
        Ok(session)
    } else {
        Err(Refusal::BadSession)
    }
}

// Whether the length and the bytes before the suite are right.
#[tactic(auto, unfolding(crate::specs::Saved::headed))]
fn headed(bytes: &[u8]) -> bool
    ensures { result ≡ headed bytes.now }
{
    bytes.len() == SIZE
        && two_byte_number_at(bytes, 0) == u32::from(REST)
        && bytes[2] == VERSION
        && bytes[3] <= 1
        && bytes[4] <= 2
}
