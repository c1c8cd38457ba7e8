// Places: the records are numbered from 0 through all tables in image order.
ghost use Rattle.std.specs.Prelude.{◌≡◌, ◌≤◌};
ghost use Rattle.csdl.specs.Model as models;
ghost use Rattle.model_image.specs.Places.{places_of, record_by};
ghost use Rattle.model_image.specs.Read.{model_read};

use crate::model::Model;
use csdl::Record;

// The place of the first record of each table after the schemas, and the number of places.
#[derive(Clone, Copy)]
pub struct Places {
    pub types: u16,
    pub properties: u16,
    pub keys: u16,
    pub constraints: u16,
    pub children: u16,
    pub bindings: u16,
    pub segments: u16,
    pub end: u16,
}

impl<'a> Model<'a> {
    pub fn types_at(&self) -> u16
        ensures { (result ≡ models.types_at (model_read self.now)) × (result ≤ 16) }
    {
        self.schema_count()
    }

    pub fn properties_at(&self) -> u16
        ensures { (result ≡ models.properties_at (model_read self.now)) × (result ≤ 80) }
    {
        self.types_at() + self.type_count()
    }

    pub fn keys_at(&self) -> u16
        ensures { (result ≡ models.keys_at (model_read self.now)) × (result ≤ 592) }
    {
        self.properties_at() + self.property_count()
    }

    pub fn constraints_at(&self) -> u16
        ensures { (result ≡ models.constraints_at (model_read self.now)) × (result ≤ 720) }
    {
        self.keys_at() + self.key_count()
    }

    pub fn children_at(&self) -> u16
        ensures { (result ≡ models.children_at (model_read self.now)) × (result ≤ 784) }
    {
        self.constraints_at() + self.constraint_count()
    }

    pub fn bindings_at(&self) -> u16
        ensures { (result ≡ models.bindings_at (model_read self.now)) × (result ≤ 848) }
    {
        self.children_at() + self.child_count()
    }

    pub fn segments_at(&self) -> u16
        ensures { (result ≡ models.segments_at (model_read self.now)) × (result ≤ 976) }
    {
        self.bindings_at() + self.binding_count()
    }

    pub fn places(&self) -> Places
        ensures value { result ≡ places_of (model_read self.now) }
        ensures bound { result.end ≤ 2000 }
    {
        let segments = self.segments_at();
        Places {
            types: self.types_at(),
            properties: self.properties_at(),
            keys: self.keys_at(),
            constraints: self.constraints_at(),
            children: self.children_at(),
            bindings: self.bindings_at(),
            segments,
            end: segments + self.segment_count(),
        }
    }
}

impl Places {
    // The record at a place.
    pub fn record_at(self, place: u16) -> Record
        ensures { result ≡ record_by self place }
    {
        if place < self.types {
            return Record::OfSchema(place);
        }
        if place < self.properties {
            return Record::OfType(place - self.types);
        }
        if place < self.keys {
            return Record::OfProperty(place - self.properties);
        }
        if place < self.constraints {
            return Record::OfKey(place - self.keys);
        }
        if place < self.children {
            return Record::OfConstraint(place - self.constraints);
        }
        if place < self.bindings {
            return Record::OfChild(place - self.children);
        }
        if place < self.segments {
            return Record::OfBinding(place - self.bindings);
        }
        if place < self.end {
            return Record::OfSegment(place - self.segments);
        }
        Record::Nowhere
    }
}
