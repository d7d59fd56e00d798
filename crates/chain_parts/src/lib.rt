// A string of bytes in parts: how many there are, and where each ends.
#![tactic(auto)]

ghost use Rattle.std.specs.Prelude.{◌≡◌, ◌≤◌, length};
ghost use Rattle.chain_parts.specs.Parts.{part_end};

// The index behind the part that starts at index `start`: it has that many bytes, or what is left.
pub fn part_end(bytes: &[u8], start: usize, most: usize) -> usize
    requires { start ≤ length bytes.now }
    ensures { result ≡ part_end bytes.now start most }
{
    start + most.min(bytes.len() - start)
}
