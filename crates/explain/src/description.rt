// Records in words: what a record is and its number, its name, and what it belongs to.
use crate::print::{Output, joined, named, numbered, text};
use csdl::Record;
use model_image::fields::text_of;
use model_image::model::Model;
use model_image::places::Places;

// An image that keeps rule 1, and what is in it; `names` has its name bytes, or no bytes where they cannot be read.
#[derive(Clone, Copy)]
pub struct Subject<'a> {
    pub image: &'a [u8],
    pub model: Model<'a>,
    pub places: Places,
    pub names: &'a [u8],
}

// The record at a place, as `property 3 Label of entity type 1 Stop`.
pub fn record(rt: &impl Output, of: &Subject, place: u16) {
    let rec = of.places.record_at(place);
    head(rt, &of.model, rec);
    named(rt, model_naming::name_record(of.image, place as u32));
    if let Some(owner) = owner_of(&of.model, rec) {
        text(rt, b" of ");
        in_words(rt, of, owner);
    }
}

// A schema, type, property or child, as `entity type 1 Stop` or `navigation property 4 Stop/Next`.
pub fn in_words(rt: &impl Output, of: &Subject, rec: Record) {
    let model = &of.model;
    head(rt, model, rec);
    match rec {
        Record::OfSchema(s) => named(rt, text_of(of.names, model.schema_namespace(s))),
        Record::OfType(t) => named(rt, text_of(of.names, model.type_name(t))),
        Record::OfProperty(p) => named_within(rt, of, p),
        Record::OfChild(h) => named(rt, text_of(of.names, model.child_name(h))),
        _ => {}
    }
}

// The name of a property behind that of its owner.
fn named_within(rt: &impl Output, of: &Subject, p: u16) {
    let model = &of.model;
    named(
        rt,
        text_of(of.names, model.type_name(model.property_owner(p))),
    );
    joined(rt, b"/", text_of(of.names, model.property_name(p)));
}

// The record that a record belongs to, if it does to one.
fn owner_of(model: &Model, rec: Record) -> Option<Record> {
    match rec {
        Record::OfType(t) => Some(Record::OfSchema(model.type_schema(t))),
        Record::OfProperty(p) => Some(Record::OfType(model.property_owner(p))),
        Record::OfKey(k) => Some(Record::OfType(model.key_owner(k))),
        Record::OfConstraint(c) => Some(Record::OfProperty(model.constraint_property(c))),
        Record::OfChild(h) => Some(Record::OfType(model.child_type(h))),
        Record::OfBinding(b) => Some(Record::OfChild(model.binding_child(b))),
        _ => None,
    }
}

// What a record is, and its number.
fn head(rt: &impl Output, model: &Model, rec: Record) {
    match rec {
        Record::OfSchema(s) => schema_head(rt, model, s),
        Record::OfType(t) => type_head(rt, model, t),
        Record::OfProperty(p) => property_head(rt, model, p),
        Record::OfKey(k) => numbered(rt, b"key ", k),
        Record::OfConstraint(c) => numbered(rt, b"constraint ", c),
        Record::OfChild(h) => child_head(rt, model, h),
        Record::OfBinding(b) => numbered(rt, b"binding ", b),
        Record::OfSegment(g) => segment_head(rt, model, g),
        Record::Nowhere => text(rt, b"no record"),
    }
}

fn schema_head(rt: &impl Output, model: &Model, s: u16) {
    if s < model.schema_count() {
        numbered(rt, b"schema ", s);
    } else {
        numbered(rt, b"missing schema ", s);
    }
}

// By the number of the kind: while rule 4 is broken it may be none of the four.
fn type_head(rt: &impl Output, model: &Model, t: u16) {
    if t >= model.type_count() {
        numbered(rt, b"missing type ", t);
        return;
    }
    match model.type_kind(t) {
        0 => numbered(rt, b"entity type ", t),
        1 => numbered(rt, b"complex type ", t),
        2 => numbered(rt, b"enumeration type ", t),
        3 => numbered(rt, b"type definition ", t),
        _ => numbered(rt, b"type of no kind ", t),
    }
}

fn property_head(rt: &impl Output, model: &Model, p: u16) {
    if p >= model.property_count() {
        numbered(rt, b"missing property ", p);
    } else if model.property_navigation(p) {
        numbered(rt, b"navigation property ", p);
    } else {
        numbered(rt, b"property ", p);
    }
}

fn child_head(rt: &impl Output, model: &Model, h: u16) {
    if h >= model.child_count() {
        numbered(rt, b"missing child ", h);
    } else if model.child_singleton(h) {
        numbered(rt, b"singleton ", h);
    } else {
        numbered(rt, b"entity set ", h);
    }
}

fn segment_head(rt: &impl Output, model: &Model, g: u16) {
    if model.segment_cast(g) {
        numbered(rt, b"cast segment ", g);
    } else {
        numbered(rt, b"segment ", g);
    }
}
