// Response chaining: a response field and the responses that carry it, asked for by GET RESPONSE (rules 7.6 to 7.9; ISO/IEC 7816-4). Types, constants,
// definitions and the theorem that the fragments asked for give the field back.
#![tactic(auto)]

use apdu::StatusWord;

// The longest field that is wrapped, and so the longest that is fragmented.
pub const LONGEST_FIELD: usize = 16403;

// What fragmenting gives: the length of the fragment that stands in the caller's buffer, its status word included, and the index of the field
// where the next one starts.
#[derive(Clone, Copy)]
pub struct ResponseFragment {
    pub len: usize,
    pub next: usize,
}

// A response that is being reassembled: how many bytes of its field stand in the caller's buffer. The buffer is lent anew with each fragment
// (C's interface), so the chain holds no slice.
#[derive(Clone, Copy)]
pub struct ResponseChain {
    pub len: usize,
}

impl ResponseChain {
    // The chain that a caller starts with.
    pub const EMPTY: ResponseChain = ResponseChain { len: 0 };
}

// What reassembling gives for a fragment that it takes.
#[derive(Clone, Copy)]
pub enum ResponsePart {
    // More fragments follow: the bytes so far, and Le of the GET RESPONSE that asks for the next.
    More(usize, u8),
    // The length of the field that stands in the caller's buffer, and the status word.
    Whole(usize, StatusWord),
}
