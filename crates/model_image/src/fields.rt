// Names and paths as fields of a record, and the bytes of a name.
ghost use Rattle.std.specs.Prelude.{◌≡◌, ◌+◌, ◌<◌};
ghost use Rattle.packed.specs.Field.{field_of};
ghost use Rattle.packed.specs.Bytes.{part};

use csdl::Run;
use packed::{part_of, two_fields};

// Where a name starts in the name bytes, and its length; length 0 means absent.
#[derive(Clone, Copy)]
pub struct Name {
    pub start: u16,
    pub size: u16,
}

// The name field at a bit offset, start and length read at once.
pub fn name_in(table: &[u8], at: u32) -> Name
    ensures { (result.start ≡ field_of table.now at 12) × (result.size ≡ field_of table.now (at + 12) 8) × (result.start < 4096) × (result.size < 256) }
{
    let both = two_fields(table, at, 12, 8);
    Name {
        start: both.first,
        size: both.second,
    }
}

// The path field at a bit offset, likewise.
pub(crate) fn path_in(table: &[u8], at: u32) -> Run
    ensures { (result.first ≡ field_of table.now at 11) × (result.count ≡ field_of table.now (at + 11) 4) × (result.first < 2048) × (result.count < 16) }
{
    let both = two_fields(table, at, 11, 4);
    Run {
        first: both.first,
        count: both.second,
    }
}

// The bytes of a name.
pub fn text_of(names: &[u8], n: Name) -> &[u8]
    ensures { result.now ≡ part names.now n.start n.size }
{
    part_of(names, n.start as u32, n.size as u32)
}
