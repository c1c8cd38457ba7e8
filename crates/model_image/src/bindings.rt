// The table of bindings: the fields of a record by its number; a record past the end of the table reads as zeros.
ghost use Rattle.std.specs.Prelude.{◌≡◌, ◌≤◌, ◌<◌};
ghost use Rattle.model_image.specs.Read.{model_read};

use crate::fields::path_in;
use crate::model::Model;
use csdl::Run;
use packed::field16;

impl<'a> Model<'a> {
    // How many records the table has.
    pub fn binding_count(&self) -> u16
        ensures { (result ≡ (model_read self.now).bindings) × (result ≤ 128) }
    {
        (self.bindings.len() / 6) as u16
    }

    pub fn binding_child(&self, b: u16) -> u16
        ensures { (result ≡ (model_read self.now).binding_child b) × (result < 64) }
    {
        field16(self.bindings, 48 * (b as u32), 6)
    }

    pub fn binding_path(&self, b: u16) -> Run
        ensures { (result.first ≡ ((model_read self.now).binding_path b).first) × (result.count ≡ ((model_read self.now).binding_path b).count) × (result.first < 2048) × (result.count < 16) }
    {
        path_in(self.bindings, 48 * (b as u32) + 6)
    }

    pub fn binding_target(&self, b: u16) -> u16
        ensures { (result ≡ (model_read self.now).target b) × (result < 64) }
    {
        field16(self.bindings, 48 * (b as u32) + 21, 6)
    }

    pub fn binding_target_path(&self, b: u16) -> Run
        ensures { (result.first ≡ ((model_read self.now).target_path b).first) × (result.count ≡ ((model_read self.now).target_path b).count) × (result.first < 2048) × (result.count < 16) }
    {
        path_in(self.bindings, 48 * (b as u32) + 27)
    }

    pub fn binding_spare(&self, b: u16) -> u16
        ensures { (result ≡ (model_read self.now).binding_spare b) × (result < 64) }
    {
        field16(self.bindings, 48 * (b as u32) + 42, 6)
    }
}
