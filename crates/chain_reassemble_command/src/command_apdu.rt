// The APDU of a command fragment, as it is read: header, Lc, and the two exact shapes that are taken (rule 7.4).
ghost use Rattle.std.specs.Prelude.{◌≡◌, ◌≤◌, length};
ghost use Rattle.chain_command.specs.Apdu.{header_of, lc, is_chained, is_last, well_formed};

use apdu::Header;
use chain_command::{CHAINED_CLA, LAST_CLA};

pub fn header_of(apdu: &[u8]) -> Header
    requires { 5 ≤ length apdu.now }
    ensures { result ≡ header_of apdu.now }
{
    Header {
        ins: apdu[1],
        p1: apdu[2],
        p2: apdu[3],
    }
}

pub fn lc(apdu: &[u8]) -> usize
    requires { 5 ≤ length apdu.now }
    ensures value { result ≡ lc apdu.now }
    ensures byte { result ≤ 255 }
{
    usize::from(apdu[4])
}

#[tactic(auto, unfolding(chain_command::specs::Apdu::is_chained))]
pub fn is_chained(apdu: &[u8]) -> bool
    requires { 5 ≤ length apdu.now }
    ensures { result ≡ is_chained apdu.now }
{
    apdu[0] == CHAINED_CLA && apdu.len() == 5 + lc(apdu)
}

#[tactic(auto, unfolding(chain_command::specs::Apdu::is_last))]
pub fn is_last(apdu: &[u8]) -> bool
    requires { 5 ≤ length apdu.now }
    ensures { result ≡ is_last apdu.now }
{
    let end = 5 + lc(apdu);
    apdu[0] == LAST_CLA && apdu.len() == end + 1 && apdu[end] == 0x00
}

#[tactic(auto, unfolding(chain_command::specs::Apdu::well_formed))]
pub fn well_formed(apdu: &[u8]) -> bool
    ensures { result ≡ well_formed apdu.now }
{
    apdu.len() >= 5 && lc(apdu) >= 1 && (is_chained(apdu) || is_last(apdu))
}
