// The table of keys: the fields of a record by its number; a record past the end of the table reads as zeros.
ghost use Rattle.std.specs.Prelude.{◌≡◌, ◌≤◌, ◌<◌};
ghost use Rattle.model_image.specs.Read.{model_read};

use crate::fields::{Name, name_in, path_in};
use crate::model::Model;
use csdl::Run;
use packed::field16;

impl<'a> Model<'a> {
    // How many records the table has.
    pub fn key_count(&self) -> u16
        ensures { (result ≡ (model_read self.now).keys) × (result ≤ 128) }
    {
        (self.keys.len() / 6) as u16
    }

    pub fn key_owner(&self, k: u16) -> u16
        ensures { (result ≡ (model_read self.now).key_owner k) × (result < 64) }
    {
        field16(self.keys, 48 * (k as u32), 6)
    }

    pub fn key_path(&self, k: u16) -> Run
        ensures { (result.first ≡ ((model_read self.now).key_path k).first) × (result.count ≡ ((model_read self.now).key_path k).count) × (result.first < 2048) × (result.count < 16) }
    {
        path_in(self.keys, 48 * (k as u32) + 6)
    }

    pub fn key_alias(&self, k: u16) -> Name
        ensures { (result.start ≡ ((model_read self.now).key_alias k).start) × (result.size ≡ ((model_read self.now).key_alias k).size) × (result.start < 4096) × (result.size < 256) }
    {
        name_in(self.keys, 48 * (k as u32) + 21)
    }

    pub fn key_spare(&self, k: u16) -> u16
        ensures { (result ≡ (model_read self.now).key_spare k) × (result < 128) }
    {
        field16(self.keys, 48 * (k as u32) + 41, 7)
    }
}
