// The data objects of a secure messaging field, read from left to right (SP 800-73-4 Part 2, 4.2; rule 5.5).
#![tactic(auto)]

mod reader;

ghost use Rattle.std.specs.Prelude.{◌≡◌, ◌+◌, ◌≤◌};
ghost use Rattle.field_read.specs.Field.{noted, ended, read_field};
ghost use Rattle.field_read.specs.declared.FieldError.TheVariants.{Malformed};
ghost use Rattle.field_expected.specs.Wanted.{lacks};

use field_expected::{Need, TAG_8E, TAG_87, Wanted};
use field_object::{Breach, DataObject};
use reader::Reader;

// What stands in a field. '87', if it is there, stands first.
#[derive(Clone, Copy, Default)]
pub struct Objects {
    // The encrypted data, behind the padding-content indicator byte; no bytes where there is no '87'.
    pub ciphertext: usize,
    pub ciphertext_len: usize,
    // Whether '97' or '99' is there.
    pub second: bool,
    // Where '8E' starts, which the MAC does not cover, and its eight bytes.
    pub mac_start: usize,
    pub mac: usize,
}

// Why a field is refused.
#[derive(Clone, Copy)]
pub enum FieldError {
    // The first breach.
    Malformed(Breach),
    // No breach, but an object is lacking: the first one in the side's list, and the field's end.
    Missing(u8, usize),
}

impl From<Breach> for FieldError {
    ghost from_gives = { λ breach error. error ≡ Malformed breach };

    fn from(breach: Breach) -> FieldError {
        FieldError::Malformed(breach)
    }
}

// The objects of a field, or the first breach, or the first object that is lacking.
pub fn read_field(wanted: Wanted, field: &[u8]) -> Result<Objects, FieldError>
    ensures { result ≡ read_field wanted field.now }
{
    let mut objects = Objects::default();
    let mut place = 0;
    let mut reader = Reader::new(field, 0);
    // The reader is no Iterator: what may stand next depends on the place of the object before.
    while reader.has_more() {
        let read = reader.next(wanted, place);
        let Ok(object) = read else {
            return Err(FieldError::from(read.unwrap_err()));
        };
        objects = noted(objects, object);
        place = wanted.second.rank(object.tag);
    }
    ended(wanted, objects, place, field.len())
}

// The objects with one more.
fn noted(objects: Objects, object: DataObject) -> Objects
    requires { (1 ≤ object.len) × (object.value + object.len ≡ object.next) }
    ensures { result ≡ noted objects object }
{
    match object.tag {
        TAG_87 => Objects {
            ciphertext: object.value + 1,
            ciphertext_len: object.len - 1,
            ..objects
        },
        TAG_8E => Objects {
            mac_start: object.start,
            mac: object.value,
            ..objects
        },
        _ => Objects {
            second: true,
            ..objects
        },
    }
}

fn lacks(need: Need, there: bool) -> bool
    ensures { result ≡ lacks need there }
{
    need == Need::Must && !there
}

// At the field's end, after an object at place `after`: the objects, or the first that is lacking.
fn ended(wanted: Wanted, objects: Objects, after: usize, end: usize) -> Result<Objects, FieldError>
    ensures { result ≡ ended wanted objects after end }
{
    if lacks(wanted.data, 0 < objects.ciphertext_len) {
        return Err(FieldError::Missing(TAG_87, end));
    }
    if lacks(wanted.second.need(), objects.second) {
        return Err(FieldError::Missing(wanted.second.tag(), end));
    }
    if after < 3 {
        return Err(FieldError::Missing(TAG_8E, end));
    }
    Ok(objects)
}
