// The parts of a response field: how much is asked for, where a fragment's data ends, and the status word after it (rule 7.6).
ghost use Rattle.std.specs.Prelude.{◌≡◌, ◌+◌, ◌≤◌, length};
ghost use Rattle.octets.specs.Write.{Wrote};
ghost use Rattle.chain_response.specs.Fragment.{asked, announced, fragment_status, next};

use apdu::StatusWord;
use chain_parts::part_end;
use message_answer::MORE_SW1;
use octets::put_bytes;

#[tactic(auto, unfolding(chain_response::specs::Fragment::asked))]
// Le 00 asks for 256 bytes (ISO/IEC 7816-4).
fn asked(le: u8) -> usize
    ensures { result ≡ asked le }
{
    if le == 0x00 { 256 } else { usize::from(le) }
}

// The index behind the data of the fragment that starts at index `at`: the last one may have less than was asked for.
#[tactic(auto, unfolding(chain_response::specs::Fragment::next, chain_response::specs::Fragment::fragment_data))]
pub fn next(field: &[u8], at: usize, le: u8) -> usize
    requires { at ≤ length field.now }
    ensures { result ≡ next field.now at le }
{
    part_end(field, at, asked(le))
}

// SW2 of "more bytes are available", where n are left: 00 tells 256 or more.
#[tactic(auto, unfolding(chain_response::specs::Fragment::announced))]
fn announced(n: usize) -> u8
    ensures { result ≡ announced n }
{
    u8::try_from(n).unwrap_or(0x00)
}

// The status word of a fragment with `left` bytes left after it, from index `at` on; the index behind it.
#[tactic(auto, unfolding(chain_response::specs::Fragment::fragment_status))]
pub fn put_status(out: &mut [u8], at: usize, status: StatusWord, left: usize) -> usize
    requires { at + 2 ≤ length out.old }
    ensures { Wrote out.old at (fragment_status status left) result out.new }
{
    if left == 0 {
        return put_bytes(out, at, &[status.sw1, status.sw2]);
    }
    put_bytes(out, at, &[MORE_SW1, announced(left)])
}
