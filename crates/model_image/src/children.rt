// The table of children: the fields of a record by its number; a record past the end of the table reads as zeros.
ghost use Rattle.std.specs.Prelude.{◌≡◌, ◌≤◌, ◌<◌};
ghost use Rattle.model_image.specs.Read.{model_read};

use crate::fields::{Name, name_in};
use crate::model::Model;
use packed::{field16, flag};

impl<'a> Model<'a> {
    // How many records the table has, as far as rule 1 allows.
    pub fn child_count(&self) -> u16
        ensures { (result ≡ (model_read self.now).children) × (result ≤ 64) }
    {
        (self.children.len() / 4).min(64) as u16
    }

    pub fn child_singleton(&self, h: u16) -> bool
        ensures { result ≡ (model_read self.now).singleton h }
    {
        flag(self.children, 32 * (h as u32))
    }

    pub fn child_nullable(&self, h: u16) -> bool
        ensures { result ≡ (model_read self.now).child_nullable h }
    {
        flag(self.children, 32 * (h as u32) + 1)
    }

    pub fn child_type(&self, h: u16) -> u16
        ensures { (result ≡ (model_read self.now).child_type h) × (result < 64) }
    {
        field16(self.children, 32 * (h as u32) + 2, 6)
    }

    pub fn child_name(&self, h: u16) -> Name
        ensures { (result.start ≡ ((model_read self.now).child_name h).start) × (result.size ≡ ((model_read self.now).child_name h).size) × (result.start < 4096) × (result.size < 256) }
    {
        name_in(self.children, 32 * (h as u32) + 8)
    }

    pub fn child_spare(&self, h: u16) -> u16
        ensures { (result ≡ (model_read self.now).child_spare h) × (result < 16) }
    {
        field16(self.children, 32 * (h as u32) + 28, 4)
    }
}
