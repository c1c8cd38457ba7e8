// The paths of an image in words, by kind and record.
use crate::description::{Subject, in_words, record};
use crate::print::{Output, text};
use csdl::{PathKind, Record};
use model_image::places::Places;
use path_kinds::kinds::start_of;

// A path in words, as `binding 0 of entity set 0 Tours, from entity type 0 Tour`: what it is, the record that holds it and, unless
// that is the record's owner, the type at which it starts.
pub fn heading(rt: &impl Output, of: &Subject, kind: PathKind, r: u16) {
    text(rt, role(kind));
    record(rt, of, first_holder(of.places, kind).wrapping_add(r));
    match kind {
        PathKind::Key | PathKind::Dependent => {}
        _ => from(rt, of, kind, r),
    }
}

// The word for a path among those of its record: none for that of a key or binding.
fn role(kind: PathKind) -> &'static [u8] {
    match kind {
        PathKind::Partner => b"partner of ",
        PathKind::Dependent => b"dependent of ",
        PathKind::Principal => b"principal of ",
        PathKind::Target => b"target of ",
        PathKind::Key | PathKind::Binding => b"",
    }
}

// The type at which a path starts: a number below 64 is that of a type.
fn from(rt: &impl Output, of: &Subject, kind: PathKind, r: u16) {
    text(rt, b", from ");
    let t = start_of(&of.model, kind, r);
    if t < 64 {
        in_words(rt, of, Record::OfType(t));
    } else {
        text(rt, b"a primitive type");
    }
}

// The place of the first record of the table whose records hold paths of the kind.
fn first_holder(at: Places, kind: PathKind) -> u16 {
    match kind {
        PathKind::Partner => at.properties,
        PathKind::Key => at.keys,
        PathKind::Dependent | PathKind::Principal => at.constraints,
        PathKind::Binding | PathKind::Target => at.bindings,
    }
}
