// Fields made by hand. C stands for encrypted data, M for the MAC.
ghost use Rattle.std.specs.Prelude.{◌≤◌, length};

use crate::row;
use field_expected::{Need, Second, Wanted};
use field_read::read_field;
use octets::put_bytes;
use std::io;

fn command(rt: &impl Print, damage: &[u8], field: &[u8]) -> io::Result<()> {
    row::begin(rt, b"command  ", damage)?;
    row::end(rt, read_field(crate::get_data(), field))
}

fn response(rt: &impl Print, damage: &[u8], field: &[u8]) -> io::Result<()> {
    row::begin(rt, b"response ", damage)?;
    row::end(rt, read_field(crate::response(), field))
}

// A breach before the end comes before a lacking object.
pub fn lacking(rt: &impl Print) -> io::Result<()> {
    command(
        rt,
        b"no '97'                 ",
        b"\x87\x11\x01CCCCCCCCCCCCCCCC\x8E\x08MMMMMMMM",
    )?;
    command(
        rt,
        b"no '97', 00 after '8E'  ",
        b"\x87\x11\x01CCCCCCCCCCCCCCCC\x8E\x08MMMMMMMM\x00",
    )?;
    command(
        rt,
        b"no '87'                 ",
        b"\x97\x01\x00\x8E\x08MMMMMMMM",
    )?;
    command(rt, b"'8E' alone              ", b"\x8E\x08MMMMMMMM")
}

// Tags that are not in a command's list, or not after the one before.
pub fn tags(rt: &impl Print) -> io::Result<()> {
    command(
        rt,
        b"00 after '8E'           ",
        b"\x87\x11\x01CCCCCCCCCCCCCCCC\x97\x01\x00\x8E\x08MMMMMMMM\x00",
    )?;
    command(
        rt,
        b"'97' after '8E'         ",
        b"\x87\x11\x01CCCCCCCCCCCCCCCC\x8E\x08MMMMMMMM\x97\x01\x00",
    )?;
    command(
        rt,
        b"'99' in place of '97'   ",
        b"\x87\x11\x01CCCCCCCCCCCCCCCC\x99\x02\x90\x00\x8E\x08MMMMMMMM",
    )
}

pub fn order(rt: &impl Print) -> io::Result<()> {
    command(
        rt,
        b"'97' before '87'        ",
        b"\x97\x01\x00\x87\x11\x01CCCCCCCCCCCCCCCC\x8E\x08MMMMMMMM",
    )?;
    command(
        rt,
        b"'87' twice              ",
        b"\x87\x11\x01CCCCCCCCCCCCCCCC\x87\x11\x01CCCCCCCCCCCCCCCC\x97\x01\x00\x8E\x08MMMMMMMM",
    )
}

// Forms that are not the shortest, or not allowed at all.
pub fn length_forms(rt: &impl Print) -> io::Result<()> {
    command(
        rt,
        b"'87 81 11'              ",
        b"\x87\x81\x11\x01CCCCCCCCCCCCCCCC\x97\x01\x00\x8E\x08MMMMMMMM",
    )?;
    command(
        rt,
        b"'87 82 00 11'           ",
        b"\x87\x82\x00\x11\x01CCCCCCCCCCCCCCCC\x97\x01\x00\x8E\x08MMMMMMMM",
    )?;
    command(
        rt,
        b"'87 83 00 00 11'        ",
        b"\x87\x83\x00\x00\x11\x01CCCCCCCCCCCCCCCC\x97\x01\x00\x8E\x08MMMMMMMM",
    )
}

// E must be a multiple of 16, at most 2,048.
pub fn length_sizes(rt: &impl Print) -> io::Result<()> {
    command(
        rt,
        b"'87 10', E 15           ",
        b"\x87\x10\x01CCCCCCCCCCCCCCC\x97\x01\x00\x8E\x08MMMMMMMM",
    )?;
    command(
        rt,
        b"'87 31', E 48           ",
        b"\x87\x31\x01CCCCCCCCCCCCCCCC\x97\x01\x00\x8E\x08MMMMMMMM",
    )?;
    command(
        rt,
        b"'87 82 08 01', E 2048   ",
        b"\x87\x82\x08\x01\x01CCCCCCCCCCCCCCCC\x97\x01\x00\x8E\x08MMMMMMMM",
    )?;
    command(
        rt,
        b"'87 82 08 11', E 2064   ",
        b"\x87\x82\x08\x11\x01CCCCCCCCCCCCCCCC\x97\x01\x00\x8E\x08MMMMMMMM",
    )
}

// '8E' has eight bytes, '87' a multiple of 16 behind the '01': the field is whole, only the size is wrong.
pub fn whole_sizes(rt: &impl Print) -> io::Result<()> {
    command(
        rt,
        b"'8E 07'                 ",
        b"\x87\x11\x01CCCCCCCCCCCCCCCC\x97\x01\x00\x8E\x07MMMMMMM",
    )?;
    whole(rt, b"'87 19', E 24           ", b"\x87\x19\x01", 24)
}

// Either side of the lines between the three forms, all bytes there. Of these E only 256 is a multiple of 16.
pub fn length_edges(rt: &impl Print) -> io::Result<()> {
    whole(rt, b"'87 7F', E 126          ", b"\x87\x7F\x01", 126)?;
    whole(rt, b"'87 81 7F', E 126       ", b"\x87\x81\x7F\x01", 126)?;
    whole(rt, b"'87 81 FF', E 254       ", b"\x87\x81\xFF\x01", 254)?;
    whole(
        rt,
        b"'87 82 00 FF', E 254    ",
        b"\x87\x82\x00\xFF\x01",
        254,
    )?;
    whole(
        rt,
        b"'87 82 01 00', E 255    ",
        b"\x87\x82\x01\x00\x01",
        255,
    )?;
    whole(
        rt,
        b"'87 82 01 01', E 256    ",
        b"\x87\x82\x01\x01\x01",
        256,
    )
}

// The start of '87' as given, e bytes of encrypted data, '97' and '8E'.
fn whole(rt: &impl Print, damage: &[u8], start: &[u8], e: usize) -> io::Result<()>
    requires { (length start.now ≤ 5) × (e ≤ 256) }
{
    let mut field = [b'C'; 274];
    let at = put_bytes(&mut field, 0, start);
    let end = put_bytes(&mut field, at + e, b"\x97\x01\x00\x8E\x08MMMMMMMM");
    command(rt, damage, &field[..end])
}

pub fn responses(rt: &impl Print) -> io::Result<()> {
    response(
        rt,
        b"no '87'                 ",
        b"\x99\x02\x90\x00\x8E\x08MMMMMMMM",
    )?;
    response(rt, b"no '8E'                 ", b"\x99\x02\x90\x00")?;
    response(rt, b"'99' differs, no '8E'   ", b"\x99\x02\x6A\x82")?;
    response(rt, b"'8E' alone              ", b"\x8E\x08MMMMMMMM")?;
    response(
        rt,
        b"'97' in place of '99'   ",
        b"\x97\x01\x00\x8E\x08MMMMMMMM",
    )
}

// At most 16,384.
pub fn response_length_sizes(rt: &impl Print) -> io::Result<()> {
    response(
        rt,
        b"'87 82 40 01', E 16384  ",
        b"\x87\x82\x40\x01\x01CCCCCCCCCCCCCCCC\x99\x02\x90\x00\x8E\x08MMMMMMMM",
    )?;
    response(
        rt,
        b"'87 82 40 11', E 16400  ",
        b"\x87\x82\x40\x11\x01CCCCCCCCCCCCCCCC\x99\x02\x90\x00\x8E\x08MMMMMMMM",
    )
}

// CHANGE REFERENCE DATA (24), VERIFY (20) and GENERAL AUTHENTICATE (87) want other objects than GET DATA.
pub fn other_commands(rt: &impl Print) -> io::Result<()> {
    let change = needs(Need::Must, Need::MustNot);
    let verify = needs(Need::May, Need::MustNot);
    let authenticate = needs(Need::Must, Need::May);
    other(
        rt,
        b"INS 24   '97', no '87'           ",
        change,
        b"\x97\x01\x00\x8E\x08MMMMMMMM",
    )?;
    other(rt, b"INS 20   no bytes                ", verify, b"")?;
    other(
        rt,
        b"INS 20   '8E' alone              ",
        verify,
        b"\x8E\x08MMMMMMMM",
    )?;
    other(
        rt,
        b"INS 87   no '97'                 ",
        authenticate,
        b"\x87\x11\x01CCCCCCCCCCCCCCCC\x8E\x08MMMMMMMM",
    )
}

fn needs(data: Need, le: Need) -> Wanted {
    Wanted {
        data,
        limit: 2048,
        second: Second::Le(le),
    }
}

fn other(rt: &impl Print, damage: &[u8], wanted: Wanted, field: &[u8]) -> io::Result<()> {
    test_print::text(rt, damage)?;
    row::end(rt, read_field(wanted, field))
}
