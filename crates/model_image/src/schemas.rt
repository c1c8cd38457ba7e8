// The table of schemas: the fields of a record by its number; a record past the end of the table reads as zeros.
ghost use Rattle.std.specs.Prelude.{◌≡◌, ◌≤◌, ◌<◌};
ghost use Rattle.model_image.specs.Read.{model_read};

use crate::fields::{Name, name_in};
use crate::model::Model;

impl<'a> Model<'a> {
    // How many records the table has.
    pub fn schema_count(&self) -> u16
        ensures { (result ≡ (model_read self.now).schemas) × (result ≤ 16) }
    {
        (self.schemas.len() / 5) as u16
    }

    pub fn schema_namespace(&self, s: u16) -> Name
        ensures { (result.start ≡ ((model_read self.now).namespace s).start) × (result.size ≡ ((model_read self.now).namespace s).size) × (result.start < 4096) × (result.size < 256) }
    {
        name_in(self.schemas, 40 * (s as u32))
    }

    pub fn schema_alias(&self, s: u16) -> Name
        ensures { (result.start ≡ ((model_read self.now).alias s).start) × (result.size ≡ ((model_read self.now).alias s).size) × (result.start < 4096) × (result.size < 256) }
    {
        name_in(self.schemas, 40 * (s as u32) + 20)
    }
}
