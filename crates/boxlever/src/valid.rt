// Whether some data has a decimal that is no number, and what is said of the first that is none. A yes of the fence holds for data without one.
use crate::fields::{element_of, start_of};
use crate::lines::Line;
use crate::parts::{Image, Unit};
use crate::phrase::put_name;
use crate::say::{BUFFER, Host};
use crate::words::Status;
use rules_fence::Validity;
use rules_unit::Field;

// The first element that is no number: its field, and its number among the field's elements, from 0 on.
#[derive(Clone, Copy)]
pub struct Invalid {
    field: u16,
    element: usize,
}

// The first element that is no number in some data of a unit. A refused unit has none, and data of another size.
pub fn invalid_in(unit: Unit<'_>, image: Image<'_>) -> Option<Invalid> {
    match dibol::invalid(unit.coded.unit, image.bytes) {
        Validity::Invalid { field, element } => Some(Invalid {
            field,
            element: usize::from(element).saturating_sub(1),
        }),
        Validity::Refused(_) | Validity::WrongSize | Validity::AllValid => None,
    }
}

// Puts the name of an element, with its subscript where its field has several.
fn put_element(l: &mut Line, unit: Unit<'_>, field: Field, bad: Invalid) {
    put_name(l, unit, field, bad.field);
    if 2 <= field.count {
        write!(l, "({})", bad.element.saturating_add(1));
    }
}

// Puts whose data it is: by the words given its own, or a file's.
fn put_owner(l: &mut Line, words: &[u8], image: Image<'_>) {
    match image.file {
        None => l.text(words),
        Some(path) => {
            l.text(b" of the data in ");
            l.given(path);
        }
    }
}

// Puts what an element holds that is no number.
fn put_held(l: &mut Line, field: Field, image: Image<'_>, bad: Invalid) {
    l.text(b" is no number: ");
    l.quoted(element_of(image.bytes, field, bad.element));
}

// Puts the element that is no number, whose it is and what it holds.
pub fn put_invalid(l: &mut Line, unit: Unit<'_>, image: Image<'_>, bad: Invalid) {
    let field = unit.field(bad.field);
    put_element(l, unit, field, bad);
    put_owner(l, b" of its own data", image);
    put_held(l, field, image, bad);
}

// Puts the same with the bytes of the element.
fn put_warning(l: &mut Line, unit: Unit<'_>, image: Image<'_>, bad: Invalid) {
    let field = unit.field(bad.field);
    l.text(b"warning: ");
    put_element(l, unit, field, bad);
    l.text(b" at");
    l.bytes_at(start_of(field, bad.element), usize::from(field.size));
    put_owner(l, b" of the unit's own data", image);
    put_held(l, field, image, bad);
}

// Says a warning where some data of a unit has an element that is no number. The exit status of what is asked and answered is then worse, so that no script takes
// data for good that is not.
pub fn warn(host: &Host, unit: Unit<'_>, image: Image<'_>) -> Status {
    let Some(bad) = invalid_in(unit, image) else {
        return Status::Good;
    };
    let mut l = unit.line();
    put_warning(&mut l, unit, image, bad);
    host.say_line(l);
    host.say(
        b"  a yes holds for data whose decimals are all valid; a run from this data can stop with 22\n",
    );
    Status::Stopped
}

// ---- data of another size

// Puts how many bytes a file has, of which no more than fill the buffer are read.
pub fn put_size(l: &mut Line, n: usize) {
    write!(l, "has {n} bytes");
    if BUFFER <= n {
        l.text(b" or more");
    }
}

// Tells that a file has so many bytes, and the data of the unit in another file another number of them.
pub fn tell_size(host: &Host, path: &[u8], n: usize, file: &[u8], d: u16) {
    let mut l = Line::new();
    l.text(b"boxlever: ");
    l.given(file);
    l.text(b": ");
    put_size(&mut l, n);
    l.text(b"; the data of ");
    l.given(path);
    write!(l, " has {d}");
    host.tell_line(l);
}
