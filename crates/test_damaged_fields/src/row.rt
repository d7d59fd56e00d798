// A row of the table: the field, what was done to it, and the reader's answer. Columns begin at 0, 9, 33, 37, 50 and 55; an accepted
// field's objects at 50.
use field_object::{Breach, Rule};
use field_read::{FieldError, Objects};
use std::io;

pub fn head(rt: &impl Print) -> io::Result<()> {
    test_print::text(
        rt,
        b"field    damage                  no  rule         tag  offset, or the objects read\n",
    )
}

// 9 and 24 bytes of text.
pub fn begin(rt: &impl Print, name: &[u8], damage: &[u8]) -> io::Result<()> {
    test_print::text(rt, name)?;
    test_print::text(rt, damage)
}

pub fn begin_changed(rt: &impl Print, name: &[u8], at: usize, change: u8) -> io::Result<()> {
    test_print::text(rt, name)?;
    test_print::text(rt, b"byte ")?;
    decimal(rt, at)?;
    test_print::text(rt, b" xor ")?;
    test_print::byte(rt, change)?;
    test_print::text(rt, b"         ")
}

pub fn begin_cut_off(rt: &impl Print, name: &[u8], n: usize) -> io::Result<()> {
    test_print::text(rt, name)?;
    test_print::text(rt, b"first ")?;
    decimal(rt, n)?;
    test_print::text(rt, b" bytes         ")
}

pub fn end(rt: &impl Print, read: Result<Objects, FieldError>) -> io::Result<()> {
    match read {
        Ok(objects) => accepted(rt, objects),
        Err(FieldError::Malformed(breach)) => malformed(rt, breach),
        Err(FieldError::Missing(tag, end)) => place(rt, b" 8  missing      ", tag, end),
    }
}

// Where the encrypted data stands and its length, whether the second object is there, where '8E' starts and where its value does.
fn accepted(rt: &impl Print, objects: Objects) -> io::Result<()> {
    test_print::text(rt, b" 0  accepted     data ")?;
    decimal(rt, objects.ciphertext)?;
    test_print::text(rt, b" + ")?;
    decimal(rt, objects.ciphertext_len)?;
    if objects.second {
        test_print::text(rt, b"  second yes  8E ")?;
    } else {
        test_print::text(rt, b"  second no   8E ")?;
    }
    decimal(rt, objects.mac_start)?;
    test_print::text(rt, b"  mac ")?;
    decimal(rt, objects.mac)?;
    test_print::newline(rt)
}

fn malformed(rt: &impl Print, breach: Breach) -> io::Result<()> {
    let answer = match breach.rule {
        Rule::Tag => b" 7  tag          ",
        Rule::LengthForm => b" 7  length form  ",
        Rule::LengthSize => b" 7  length size  ",
        Rule::BytesLeft => b" 7  bytes left   ",
        Rule::Value => b" 7  value        ",
    };
    place(rt, answer, breach.tag, breach.offset)
}

fn place(rt: &impl Print, answer: &[u8], tag: u8, offset: usize) -> io::Result<()> {
    test_print::text(rt, answer)?;
    test_print::byte(rt, tag)?;
    test_print::text(rt, b"      ")?;
    decimal(rt, offset)?;
    test_print::newline(rt)
}

// Three places wide: the longest field here has 274 bytes.
fn decimal(rt: &impl Print, value: usize) -> io::Result<()> {
    if value < 100 {
        test_print::text(rt, b" ")?;
    }
    test_print::number(rt, value)
}
