// The table of members: the fields of a record by its number; a record past the end of the table reads as zeros.
ghost use Rattle.std.specs.Prelude.{◌≡◌, ◌≤◌, ◌<◌, false};
ghost use Rattle.csdl.specs.Later.{later_image1};
ghost use Rattle.csdl.specs.Members as rules;
ghost use Rattle.enumeration_members.specs.Read.{members_read};

use crate::members::Members;
use later_images::LaterImage;
use model_image::fields::{Name, name_in, text_of};
use packed::{field16, flag, word_at};

impl<'a> Members<'a> {
    // The members of an image that keeps rule 30 as a whole.
    pub fn read(image: &LaterImage<'a>) -> Members<'a>
        requires { (image.now.sizes.now ≡ rules.member_sizes) × (later_image1 rules.member_sizes image.now.image.now ≡ false) }
        ensures { members_read result ≡ rules.members_in image.now.image.now }
    {
        Members {
            table: image.table(0),
            names: image.names(),
        }
    }

    // How many there are.
    pub fn count(&self) -> u16
        ensures { (result ≡ (members_read self.now).count) × (result ≤ 1024) }
    {
        (self.table.len() / 12) as u16
    }

    pub fn member_type(&self, member: u16) -> u16
        ensures { (result ≡ (members_read self.now).member_type member) × (result < 64) }
    {
        field16(self.table, 96 * (member as u32), 6)
    }

    pub fn given(&self, member: u16) -> bool
        ensures { result ≡ (members_read self.now).given member }
    {
        flag(self.table, 96 * (member as u32) + 6)
    }

    pub fn name(&self, member: u16) -> Name
        ensures { (result.start ≡ ((members_read self.now).member_name member).start) × (result.size ≡ ((members_read self.now).member_name member).size) × (result.start < 4096) × (result.size < 256) }
    {
        name_in(self.table, 96 * (member as u32) + 7)
    }

    pub fn text(&self, member: u16) -> &'a [u8]
        ensures { result.now ≡ rules.member_text (members_read self.now) member }
    {
        text_of(self.names, self.name(member))
    }

    // The 64 bits from the 27th of the record on, of its three words: `packed::field` at this width would be too large to be taken into its callers.
    pub fn value(&self, member: u16) -> u64
        ensures { result ≡ (members_read self.now).value_field member }
    {
        let at = 12 * (member as usize);
        (word_at(self.table, at) % 32) * 576460752303423488
            + word_at(self.table, at + 4) * 134217728
            + word_at(self.table, at + 8) / 32
    }

    pub fn spare(&self, member: u16) -> u16
        ensures { (result ≡ (members_read self.now).member_spare member) × (result < 32) }
    {
        field16(self.table, 96 * (member as u32) + 91, 5)
    }
}
