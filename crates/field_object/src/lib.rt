// One data object of a field, read at an index (SP 800-73-4 Part 2, 4.2; rule 5.5).
#![tactic(auto)]

mod rules;

ghost use Rattle.std.specs.Prelude.{◌≡◌, ◌<◌, length};
ghost use Rattle.field_object.specs.Object.{breach, read_object};

use field_ber_length::read_length;
use field_expected::Wanted;
use rules::{right_size, right_value};

// The rule that a field breaks.
#[derive(Clone, Copy)]
pub enum Rule {
    Tag,
    LengthForm,
    LengthSize,
    BytesLeft,
    Value,
}

// A rule that is broken: the tag last read, and the index of the tag, length or value that breaks it.
#[derive(Clone, Copy)]
pub struct Breach {
    pub rule: Rule,
    pub tag: u8,
    pub offset: usize,
}

impl Breach {
    fn new(rule: Rule, tag: u8, offset: usize) -> Breach
        ensures { result ≡ breach rule tag offset }
    {
        Breach { rule, tag, offset }
    }
}

// A data object of a field: where it starts, where its value stands, and where the next one starts.
#[derive(Clone, Copy)]
pub struct DataObject {
    pub tag: u8,
    pub start: usize,
    pub value: usize,
    pub len: usize,
    pub next: usize,
}

// The object at index `at`, after one at place `after` of the side's list.
pub fn read_object(
    wanted: Wanted,
    after: usize,
    bytes: &[u8],
    at: usize,
) -> Result<DataObject, Breach>
    requires { at < length bytes.now }
    ensures { result ≡ read_object wanted after bytes.now at }
{
    let tag = bytes[at];
    let from = at + 1;
    if !wanted.allowed(after, tag) {
        return Err(Breach::new(Rule::Tag, tag, at));
    }
    let Some(field) = read_length(bytes, from) else {
        return Err(Breach::new(Rule::LengthForm, tag, from));
    };
    if !field.is_shortest() {
        return Err(Breach::new(Rule::LengthForm, tag, from));
    }
    if !right_size(wanted, tag, field.length) {
        return Err(Breach::new(Rule::LengthSize, tag, from));
    }
    let value = from + field.size;
    if bytes.len() - value < field.length {
        return Err(Breach::new(Rule::BytesLeft, tag, from));
    }
    if !right_value(wanted, tag, bytes, value) {
        return Err(Breach::new(Rule::Value, tag, value));
    }
    Ok(DataObject {
        tag,
        start: at,
        value,
        len: field.length,
        next: value + field.length,
    })
}
