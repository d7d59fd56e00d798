// Which INS and statuses are permitted, what Le and data each INS takes, and what a field is read for (rules 5.8 and 5.9).
#![tactic(auto)]

ghost use Rattle.std.specs.Prelude.{◌≡◌, ◌<◌};
ghost use Rattle.message_answer.specs.Message.{command_header};
ghost use Rattle.message_permission.specs.Permission.{ins_permitted, le_need, data_need, status_permitted, command_wanted, response_wanted, command_permitted};
ghost use Rattle.field_expected.specs.Wanted.{suits};

use apdu::{Header, StatusWord};
use field_expected::{Need, Second, Wanted};
use message_answer::{MAX_COMMAND_CIPHERTEXT, MAX_RESPONSE_CIPHERTEXT, MORE_SW1};

// Bytes and no enum: ins_permitted and command_wanted promise an answer for each byte.
const VERIFY: u8 = 0x20;

const CHANGE_REFERENCE_DATA: u8 = 0x24;

const GET_DATA: u8 = 0xCB;

const GENERAL_AUTHENTICATE: u8 = 0x87;

#[tactic(auto, unfolding(crate::specs::Permission::ins_permitted))]
pub fn ins_permitted(ins: u8) -> bool
    ensures { result ≡ ins_permitted ins }
{
    matches!(
        ins,
        VERIFY | CHANGE_REFERENCE_DATA | GET_DATA | GENERAL_AUTHENTICATE
    )
}

// Whether a command has, may have or must not have Le.
#[tactic(auto, unfolding(crate::specs::Permission::le_need))]
fn le_need(ins: u8) -> Need
    ensures { result ≡ le_need ins }
{
    match ins {
        GET_DATA => Need::Must,
        GENERAL_AUTHENTICATE => Need::May,
        _ => Need::MustNot,
    }
}

// Only VERIFY may lack data.
#[tactic(auto, unfolding(crate::specs::Permission::data_need))]
fn data_need(ins: u8) -> Need
    ensures { result ≡ data_need ins }
{
    match ins {
        VERIFY => Need::May,
        _ => Need::Must,
    }
}

// Whether an object that is there, or is not, suits the need of it.
fn suits(need: Need, there: bool) -> bool
    ensures { result ≡ suits need there }
{
    match need {
        Need::Must => there,
        Need::May => true,
        Need::MustNot => !there,
    }
}

// Whether a command with n bytes of data is permitted: its INS, and whether Le and data suit it.
#[tactic(auto, unfolding(crate::specs::Permission::command_permitted))]
pub fn command_permitted(header: Header, le: bool, n: usize) -> bool
    ensures { result ≡ command_permitted (command_header header le) n }
{
    ins_permitted(header.ins)
        && suits(data_need(header.ins), 0 < n)
        && suits(le_need(header.ins), le)
}

// A card may not wrap a status with SW1 '61'.
#[tactic(auto, unfolding(crate::specs::Permission::status_permitted))]
pub fn status_permitted(status: StatusWord) -> bool
    ensures { result ≡ status_permitted status }
{
    status.sw1 != MORE_SW1
}

// What a command's field is read for.
#[tactic(auto, unfolding(crate::specs::Permission::command_wanted))]
pub fn command_wanted(ins: u8) -> Wanted
    ensures { result ≡ command_wanted ins }
{
    Wanted {
        data: data_need(ins),
        limit: MAX_COMMAND_CIPHERTEXT,
        second: Second::Le(le_need(ins)),
    }
}

// What a response's field is read for, beside a status word.
#[tactic(auto, unfolding(crate::specs::Permission::response_wanted))]
pub fn response_wanted(status: StatusWord) -> Wanted
    ensures { result ≡ response_wanted status }
{
    Wanted {
        data: Need::May,
        limit: MAX_RESPONSE_CIPHERTEXT,
        second: Second::Status(status.sw1, status.sw2),
    }
}
