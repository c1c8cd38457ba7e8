// The table of segments: the fields of a record by its number; a record past the end of the table reads as zeros.
ghost use Rattle.std.specs.Prelude.{◌≡◌, ◌≤◌, ◌<◌};
ghost use Rattle.model_image.specs.Read.{model_read};

use crate::fields::{Name, name_in};
use crate::model::Model;
use packed::{field, field16, flag};

impl<'a> Model<'a> {
    // How many records the table has.
    pub fn segment_count(&self) -> u16
        ensures { (result ≡ (model_read self.now).segments) × (result ≤ 1024) }
    {
        (self.segments.len() / 3) as u16
    }

    pub fn segment_cast(&self, g: u16) -> bool
        ensures { result ≡ (model_read self.now).is_cast g }
    {
        flag(self.segments, 24 * (g as u32))
    }

    pub fn segment_spare(&self, g: u16) -> u16
        ensures { (result ≡ (model_read self.now).segment_spare g) × (result < 8) }
    {
        field16(self.segments, 24 * (g as u32) + 1, 3)
    }

    pub fn segment_name(&self, g: u16) -> Name
        ensures { (result.start ≡ ((model_read self.now).segment_name g).start) × (result.size ≡ ((model_read self.now).segment_name g).size) × (result.start < 4096) × (result.size < 256) }
    {
        name_in(self.segments, 24 * (g as u32) + 4)
    }

    pub fn segment_type(&self, g: u16) -> u32
        ensures { (result ≡ (model_read self.now).cast_type g) × (result < 1048576) }
    {
        field(self.segments, 24 * (g as u32) + 4, 20) as u32
    }
}
