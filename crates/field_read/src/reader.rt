// A reader, which keeps the caller's field and an index into it (rule 5.14).
ghost use Rattle.std.specs.Prelude.{◌≡◌, ◌<◌, length, nat_lt};
ghost use Rattle.field_object.specs.Object.{read_object};
ghost use Rattle.field_read.specs.Reader.{opened, moved};

use field_expected::Wanted;
use field_object::{Breach, DataObject, read_object};

// The field, and the index of the next object.
#[derive(Clone, Copy)]
pub struct Reader<'a> {
    field: &'a [u8],
    at: usize,
}

impl<'a> Reader<'a> {
    pub fn new(field: &'a [u8], at: usize) -> Reader<'a>
        ensures { result ≡ opened field.entry at }
    {
        Reader { field, at }
    }

    // Whether bytes are left to read.
    pub fn has_more(&self) -> bool
        ensures { result ≡ nat_lt self.now.at (length self.now.field.now) }
    {
        self.at < self.field.len()
    }

    // Reads the object at the reader's index, after one at place `after` of the side's list, and moves behind it.
    pub fn next(&mut self, wanted: Wanted, after: usize) -> Result<DataObject, Breach>
        requires { self.old.at < length self.old.field.now }
        ensures read { result ≡ read_object wanted after self.old.field.now self.old.at }
        ensures reader { self.new ≡ moved self.old result }
    {
        let object = read_object(wanted, after, self.field, self.at)?;
        self.at = object.next;
        Ok(object)
    }
}
