// Command chaining: a command field and the APDUs that carry it (rules 7.1 to 7.5; SP 800-73-4 Part 2, 4.2.4). Types, constants,
// definitions and the theorem that the fragments of a field give it back.
#![tactic(auto)]

use apdu::{Header, StatusWord};

// The longest field that is wrapped, and so the longest that is fragmented.
pub const LONGEST_FIELD: usize = 2066;

// CLA of secure messaging, and the same with the bit of command chaining.
pub const LAST_CLA: u8 = 0x0C;

pub const CHAINED_CLA: u8 = 0x1C;

// A command that is being reassembled: how many bytes of its field stand in the caller's buffer, and its first fragment's header. All are 0 where
// there is none. The buffer is lent anew with each fragment (C's interface), so the chain holds no slice.
#[derive(Clone, Copy)]
pub struct CommandChain {
    pub len: usize,
    pub header: Header,
}

impl CommandChain {
    // The chain that a caller starts with.
    pub const EMPTY: CommandChain = CommandChain {
        len: 0,
        header: Header {
            ins: 0,
            p1: 0,
            p2: 0,
        },
    };
}

// What reassembling gives for a fragment that it takes.
#[derive(Clone, Copy)]
pub enum CommandPart {
    // More fragments follow: the bytes so far, and the status word to answer with.
    More(usize, StatusWord),
    // The length of the field that stands in the caller's buffer, and its command's header.
    Whole(usize, Header),
}
