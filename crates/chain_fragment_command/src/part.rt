// The parts of a command field: how many fragments it has, which part each holds, and how long its APDU is (rule 7.1).
ghost use Rattle.std.specs.Prelude.{◌≡◌, ◌<◌, ◌≤◌, ◌*◌, suc, eqb, length, take, drop};
ghost use Rattle.apdu.specs.declared.Header.{Header};
ghost use Rattle.chain_command.specs.Apdu.{fragment_apdu};
ghost use Rattle.chain_command.specs.Fragment.{longest_field, fragment_size, fragment_count};

use chain_parts::part_end;

// How much size 0 asks for, which may be less than the most that a fragment holds. 0 stands for it in the C interface.
const DEFAULT_FRAGMENT: usize = 255;

// The part of a field that a fragment holds.
#[derive(Clone, Copy)]
pub struct Part<'a> {
    pub bytes: &'a [u8],
    pub last: bool,
}

#[tactic(auto, unfolding(chain_command::specs::Fragment::fragment_size))]
fn fragment_size(size: usize) -> usize
    ensures { result ≡ fragment_size size }
{
    if size == 0 { DEFAULT_FRAGMENT } else { size }
}

// How many fragments a field of n bytes has.
pub fn fragment_count(n: usize, size: usize) -> usize
    requires { (n ≤ longest_field) × (size ≤ 255) }
    ensures { result ≡ fragment_count n size }
{
    n.div_ceil(fragment_size(size))
}

// The data of fragment `number`, and whether it is the last. The number was tested before: the product could overflow.
pub fn fragment_part(field: &[u8], size: usize, number: usize) -> Part<'_>
    requires { (length field.now ≤ longest_field) × (size ≤ 255) × (number < fragment_count (length field.now) size) }
    ensures bytes { result.bytes.now ≡ take (fragment_size size) (drop (number * fragment_size size) field.now) }
    ensures last { result.last ≡ eqb (suc number) (fragment_count (length field.now) size) }
{
    let most = fragment_size(size);
    let start = number * most;
    let end = part_end(field, start, most);
    Part {
        bytes: &field[start..end],
        last: number + 1 == fragment_count(field.len(), size),
    }
}

// The length of a fragment's APDU; INS, P1 and P2 do not change it.
pub fn apdu_length(part: Part) -> usize
    ensures { (h : Header) → result ≡ length (fragment_apdu part.entry.last h part.entry.bytes.now) }
{
    if part.last {
        return 6 + part.bytes.len();
    }
    5 + part.bytes.len()
}
