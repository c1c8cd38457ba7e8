// The names of the records of a model image.
#![tactic(auto)]

mod held;

ghost use Rattle.std.specs.Prelude.{◌≡◌};
ghost use Rattle.packed.specs.Bytes.{part};
ghost use Rattle.csdl.specs.Naming.{name_of_record};
ghost use Rattle.model_naming.specs.Named.{name_start, name_size};

use held::record_name;
use model_image::image::{counts_of, starts_of};
use packed::part_of;

// Where a name stands in the image; a size of 0 is no name.
#[derive(Clone, Copy)]
pub struct NamePlace {
    pub start: u32,
    pub size: u16,
}

// Where the name of the record at a place stands.
pub fn name_place(image: &[u8], place: u32) -> NamePlace
    ensures { (result.start ≡ name_start image.now place) × (result.size ≡ name_size image.now place) }
{
    let from = starts_of(counts_of(image)).names;
    let name = record_name(image, place);
    let start = from + name.start as u32;
    NamePlace {
        start,
        size: name.size,
    }
}

// The name of the record at a place, as the part of the image that `name_place` gives; no bytes where there is none.
pub fn name_record(image: &[u8], place: u32) -> &[u8]
    ensures result_value { result.now ≡ part image.now (name_start image.now place) (name_size image.now place) }
    ensures result_value_2 { result.now ≡ name_of_record image.now place }
{
    let name = name_place(image, place);
    part_of(image, name.start, name.size as u32)
}
