// The encryption counter (SP 800-73-4 Part 2, 4.2.2).
#![tactic(auto)]

ghost use Rattle.std.specs.Prelude.{◌≡◌};
ghost use Rattle.message_counter.specs.Counter.{command_counter, response_counter};

// The counter of command number i: i as 16 bytes, the highest first.
pub fn command_counter(i: u32) -> [u8; 16]
    ensures { result ≡ command_counter i }
{
    u128::from(i).to_be_bytes()
}

// The counter of its response: the same with '80' as its first byte.
pub fn response_counter(i: u32) -> [u8; 16]
    ensures { result ≡ response_counter i }
{
    let mut counter = command_counter(i);
    counter[0] = 0x80;
    counter
}
