// The table of constraints: the fields of a record by its number; a record past the end of the table reads as zeros.
ghost use Rattle.std.specs.Prelude.{◌≡◌, ◌≤◌, ◌<◌};
ghost use Rattle.model_image.specs.Read.{model_read};

use crate::fields::path_in;
use crate::model::Model;
use csdl::Run;
use packed::field16;

impl<'a> Model<'a> {
    // How many records the table has.
    pub fn constraint_count(&self) -> u16
        ensures { (result ≡ (model_read self.now).constraints) × (result ≤ 64) }
    {
        (self.constraints.len() / 5) as u16
    }

    pub fn constraint_property(&self, c: u16) -> u16
        ensures { (result ≡ (model_read self.now).constrained c) × (result < 512) }
    {
        field16(self.constraints, 40 * (c as u32), 9)
    }

    pub fn constraint_dependent(&self, c: u16) -> Run
        ensures { (result.first ≡ ((model_read self.now).dependent c).first) × (result.count ≡ ((model_read self.now).dependent c).count) × (result.first < 2048) × (result.count < 16) }
    {
        path_in(self.constraints, 40 * (c as u32) + 9)
    }

    pub fn constraint_principal(&self, c: u16) -> Run
        ensures { (result.first ≡ ((model_read self.now).principal c).first) × (result.count ≡ ((model_read self.now).principal c).count) × (result.first < 2048) × (result.count < 16) }
    {
        path_in(self.constraints, 40 * (c as u32) + 24)
    }

    pub fn constraint_spare(&self, c: u16) -> u16
        ensures { (result ≡ (model_read self.now).constraint_spare c) × (result < 2) }
    {
        field16(self.constraints, 40 * (c as u32) + 39, 1)
    }
}
