// The later kinds of image, which are handed in beside a model: where their tables begin, the tables and the name bytes as parts of the image, and
// the test of the whole image. A kind is the list of its sizes, the bytes of a record of each table; none has more than eight tables.
#![tactic(auto)]

ghost use Rattle.std.specs.Prelude.{◌≡◌, ◌+◌, ◌*◌, ◌≤◌, ◌<◌, ltb, length};
ghost use Rattle.csdl.specs.Search.{any_from};
ghost use Rattle.csdl.specs.Image.{header};
ghost use Rattle.csdl.specs.Later as later;

use csdl::VERSION;
use packed::{number_at, part_of};

// An image, and the sizes of its kind.
#[derive(Clone, Copy)]
pub struct LaterImage<'a> {
    pub image: &'a [u8],
    pub sizes: &'a [u8],
    pub ghost few_tables: { length sizes.now ≤ 8 },
}

// The bytes that a table of `count` records of `size` bytes has.
fn table_size(size: u8, count: u16) -> u32
    ensures { (result ≡ size * count) × (result ≤ 16711425) }
{
    u32::from(size) * u32::from(count)
}

impl<'a> LaterImage<'a> {
    // How many tables the image has.
    fn tables(&self) -> u16
        ensures { (result ≡ length self.now.sizes.now) × (result ≤ 8) }
    {
        self.sizes.len() as u16
    }

    // Where table k begins; where k is the number of tables, the name bytes.
    fn table_from(&self, k: u16) -> u32
        requires { k ≤ length self.now.sizes.now }
        ensures { (result ≡ later.table_from self.now.sizes.now self.now.image.now k) × (result ≤ 133691420) }
    {
        let mut at = 2 * (2 + u32::from(self.tables()));
        for i in 0..k {
            at += table_size(self.sizes[i as usize], number_at(self.image, i + 1));
        }
        at
    }

    // Where the name bytes end.
    fn end(&self) -> u32
        ensures { result ≡ later.later_end self.now.sizes.now self.now.image.now }
    {
        let n = self.tables();
        self.table_from(n) + u32::from(number_at(self.image, n + 1))
    }

    // The bytes of table k.
    pub fn table(&self, k: u16) -> &'a [u8]
        requires { k < length self.now.sizes.now }
        ensures { result.now ≡ later.later_table self.now.sizes.now self.now.image.now k }
    {
        let from = self.table_from(k);
        part_of(self.image, from, self.table_from(k + 1) - from)
    }

    // The name bytes.
    pub fn names(&self) -> &'a [u8]
        ensures { result.now ≡ later.later_names self.now.sizes.now self.now.image.now }
    {
        let from = self.table_from(self.tables());
        part_of(self.image, from, self.end() - from)
    }

    // Whether a table has more than 1024 records.
    fn many_records(&self) -> bool
        ensures { result ≡ any_from (λ k. ltb 1024 (header self.now.image.now (k + 1))) 0 (length self.now.sizes.now) }
    {
        (0..self.tables()).any(|k| 1024 < number_at(self.image, k + 1))
    }

    // What rule 1 forbids, of a later image.
    pub fn is_bad(&self) -> bool
        ensures { result ≡ later.later_image1 self.now.sizes.now self.now.image.now }
    {
        let n = self.tables();
        (self.image.len() < 2 * (2 + usize::from(n)))
            | (number_at(self.image, 0) != VERSION)
            | (self.many_records() | (4096 < number_at(self.image, n + 1)))
            | (self.image.len() != self.end() as usize)
    }
}
