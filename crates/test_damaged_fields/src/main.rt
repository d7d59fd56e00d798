// What the reader of fields answers to damaged ones (rules 5.1 to 5.13): a command's and a response's field
// with each byte changed and cut off at each byte, and fields made by hand.
#![tactic(auto)]

mod made;
mod row;

use field_expected::{Need, Second, Wanted};
use field_read::read_field;
use std::io;

fn main(rt: HostRuntime) -> io::Result<()> {
    row::head(&rt)?;
    command_field(&rt)?;
    response_field(&rt)?;
    made::lacking(&rt)?;
    made::tags(&rt)?;
    made::order(&rt)?;
    made::length_forms(&rt)?;
    made::length_sizes(&rt)?;
    made::whole_sizes(&rt)?;
    made::length_edges(&rt)?;
    made::responses(&rt)?;
    made::response_length_sizes(&rt)?;
    made::other_commands(&rt)
}

// What GET DATA must have.
fn get_data() -> Wanted {
    Wanted {
        data: Need::Must,
        limit: 2048,
        second: Second::Le(Need::Must),
    }
}

// What a response with the trailing status 90 00 must have.
fn response() -> Wanted {
    Wanted {
        data: Need::May,
        limit: 16384,
        second: Second::Status(0x90, 0x00),
    }
}

// 5 bytes of data are 16 of encrypted data: '87' at 0, '97' at 19, '8E' at 22.
fn command_field(rt: &impl Print) -> io::Result<()> {
    let mut field = [0; 32];
    put_command(&mut field);
    damaged(rt, b"command  ", get_data(), &mut field)
}

// 112 bytes of data are 128 of encrypted data, so that '87' has a length of two bytes; '99' at 132, '8E' at 136.
fn response_field(rt: &impl Print) -> io::Result<()> {
    let mut field = [0; 146];
    put_response(&mut field);
    damaged(rt, b"response ", response(), &mut field)
}

fn put_command(out: &mut [u8]) {
    let ciphertext = [b'C'; 16];
    if out.len() < field_size::command_length(5, true) {
        return;
    }
    let next = field_write::put_command_objects(out, &ciphertext, true);
    field_write::put_mac(out, next, [b'M'; 8]);
}

fn put_response(out: &mut [u8]) {
    let ciphertext = [b'C'; 128];
    if out.len() < field_size::response_length(112) {
        return;
    }
    let next = field_write::put_response_objects(out, &ciphertext, 0x90, 0x00);
    field_write::put_mac(out, next, [b'M'; 8]);
}

fn damaged(rt: &impl Print, name: &[u8], wanted: Wanted, field: &mut [u8]) -> io::Result<()> {
    row::begin(rt, name, b"undamaged               ")?;
    row::end(rt, read_field(wanted, field))?;
    changed(rt, name, wanted, field, 0x01)?;
    changed(rt, name, wanted, field, 0x80)?;
    cut_off(rt, name, wanted, field)
}

// The field with each byte changed in turn, by exclusive or.
fn changed(
    rt: &impl Print,
    name: &[u8],
    wanted: Wanted,
    field: &mut [u8],
    change: u8,
) -> io::Result<()> {
    for at in 0..field.len() {
        let byte = field[at];
        field[at] = byte ^ change;
        row::begin_changed(rt, name, at, change)?;
        row::end(rt, read_field(wanted, field))?;
        field[at] = byte;
    }
    Ok(())
}

// The field's first bytes, from none to all but one.
fn cut_off(rt: &impl Print, name: &[u8], wanted: Wanted, field: &[u8]) -> io::Result<()> {
    for n in 0..field.len() {
        row::begin_cut_off(rt, name, n)?;
        row::end(rt, read_field(wanted, &field[..n]))?;
    }
    Ok(())
}
