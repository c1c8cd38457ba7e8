// The table of types: the fields of a record by its number; a record past the end of the table reads as zeros.
ghost use Rattle.std.specs.Prelude.{◌≡◌, ◌≤◌, ◌<◌, IfSome};
ghost use Rattle.csdl.specs.Search.{found};
ghost use Rattle.model_image.specs.Read.{model_read};

use crate::fields::{Name, name_in};
use crate::model::Model;
use packed::{field16, flag};

impl<'a> Model<'a> {
    // How many records the table has.
    pub fn type_count(&self) -> u16
        ensures { (result ≡ (model_read self.now).types) × (result ≤ 64) }
    {
        (self.types.len() / 6) as u16
    }

    pub fn type_schema(&self, t: u16) -> u16
        ensures { (result ≡ (model_read self.now).schema_of t) × (result < 16) }
    {
        field16(self.types, 48 * (t as u32), 4)
    }

    pub fn type_kind(&self, t: u16) -> u16
        ensures { (result ≡ (model_read self.now).kind t) × (result < 8) }
    {
        field16(self.types, 48 * (t as u32) + 4, 3)
    }

    pub fn type_abstract(&self, t: u16) -> bool
        ensures { result ≡ (model_read self.now).is_abstract t }
    {
        flag(self.types, 48 * (t as u32) + 7)
    }

    pub fn type_open(&self, t: u16) -> bool
        ensures { result ≡ (model_read self.now).is_open t }
    {
        flag(self.types, 48 * (t as u32) + 8)
    }

    pub fn type_media(&self, t: u16) -> bool
        ensures { result ≡ (model_read self.now).is_media t }
    {
        flag(self.types, 48 * (t as u32) + 9)
    }

    pub fn type_base(&self, t: u16) -> u16
        ensures { (result ≡ (model_read self.now).base t) × (result < 128) }
    {
        field16(self.types, 48 * (t as u32) + 10, 7)
    }

    // The type's base, if it has one.
    pub fn base_type(&self, t: u16) -> Option<u16>
        ensures value { result ≡ found ((model_read self.now).base t) }
        ensures bound { IfSome result (λ b. b < 127) }
    {
        self.type_base(t).checked_sub(1)
    }

    pub fn type_underlying(&self, t: u16) -> u16
        ensures { (result ≡ (model_read self.now).underlying t) × (result < 32) }
    {
        field16(self.types, 48 * (t as u32) + 17, 5)
    }

    pub fn type_name(&self, t: u16) -> Name
        ensures { (result.start ≡ ((model_read self.now).type_name t).start) × (result.size ≡ ((model_read self.now).type_name t).size) × (result.start < 4096) × (result.size < 256) }
    {
        name_in(self.types, 48 * (t as u32) + 22)
    }

    pub fn type_spare(&self, t: u16) -> u16
        ensures { (result ≡ (model_read self.now).type_spare t) × (result < 64) }
    {
        field16(self.types, 48 * (t as u32) + 42, 6)
    }
}
