// Messages with their limits, what a call answers, and the session that a refusal leaves. Constants, and definitions with their laws
// (rules 1.3 to 1.5).
#![tactic(auto)]

pub const MAX_COMMAND_DATA: usize = 2047;

pub const MAX_RESPONSE_DATA: usize = 16383;

// Of fields that are read.
pub const MAX_COMMAND_FIELD: usize = 2066;

pub const MAX_RESPONSE_FIELD: usize = 16403;

// Of encrypted data that is read.
pub const MAX_COMMAND_CIPHERTEXT: usize = 2048;

pub const MAX_RESPONSE_CIPHERTEXT: usize = 16384;

// SW1 of "more bytes are available".
pub const MORE_SW1: u8 = 0x61;
