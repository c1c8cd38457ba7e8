// The table of properties: the fields of a record by its number; a record past the end of the table reads as zeros.
ghost use Rattle.std.specs.Prelude.{◌≡◌, ◌≤◌, ◌<◌};
ghost use Rattle.model_image.specs.Read.{model_read};

use crate::fields::{Name, name_in, path_in};
use crate::model::Model;
use csdl::Run;
use packed::{field16, flag};

impl<'a> Model<'a> {
    // How many records the table has, as far as rule 1 allows.
    pub fn property_count(&self) -> u16
        ensures { (result ≡ (model_read self.now).properties) × (result ≤ 512) }
    {
        (self.properties.len() / 7).min(512) as u16
    }

    pub fn property_owner(&self, p: u16) -> u16
        ensures { (result ≡ (model_read self.now).owner p) × (result < 64) }
    {
        field16(self.properties, 56 * (p as u32), 6)
    }

    pub fn property_navigation(&self, p: u16) -> bool
        ensures { result ≡ (model_read self.now).navigation p }
    {
        flag(self.properties, 56 * (p as u32) + 6)
    }

    pub fn property_collection(&self, p: u16) -> bool
        ensures { result ≡ (model_read self.now).collection p }
    {
        flag(self.properties, 56 * (p as u32) + 7)
    }

    pub fn property_nullable(&self, p: u16) -> bool
        ensures { result ≡ (model_read self.now).nullable p }
    {
        flag(self.properties, 56 * (p as u32) + 8)
    }

    pub fn property_contains(&self, p: u16) -> bool
        ensures { result ≡ (model_read self.now).contains p }
    {
        flag(self.properties, 56 * (p as u32) + 9)
    }

    pub fn property_type_ref(&self, p: u16) -> u16
        ensures { (result ≡ (model_read self.now).type_ref p) × (result < 256) }
    {
        field16(self.properties, 56 * (p as u32) + 10, 8)
    }

    pub fn property_name(&self, p: u16) -> Name
        ensures { (result.start ≡ ((model_read self.now).property_name p).start) × (result.size ≡ ((model_read self.now).property_name p).size) × (result.start < 4096) × (result.size < 256) }
    {
        name_in(self.properties, 56 * (p as u32) + 18)
    }

    pub fn property_partner(&self, p: u16) -> Run
        ensures { (result.first ≡ ((model_read self.now).partner p).first) × (result.count ≡ ((model_read self.now).partner p).count) × (result.first < 2048) × (result.count < 16) }
    {
        path_in(self.properties, 56 * (p as u32) + 38)
    }

    pub fn property_spare(&self, p: u16) -> u16
        ensures { (result ≡ (model_read self.now).property_spare p) × (result < 8) }
    {
        field16(self.properties, 56 * (p as u32) + 53, 3)
    }
}
