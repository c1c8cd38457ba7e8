// The tables of an instance image, each as a part of it, and where each ends.
ghost use Rattle.std.specs.Prelude.{◌≡◌, ◌<◌};
ghost use Rattle.csdl.specs.Instance as instances;
ghost use Rattle.instance_image.specs.Tables as tables;

use packed::{number_at, part_of};

// Where the nodes end, the slots, and the items.
fn nodes_end(image: &[u8]) -> u32
    ensures { (result ≡ instances.slots_from image.now) × (result < 300000) }
{
    8 + 4 * (number_at(image, 1) as u32)
}

fn slots_end(image: &[u8]) -> u32
    ensures { (result ≡ instances.items_from image.now) × (result < 700000) }
{
    nodes_end(image) + 5 * (number_at(image, 2) as u32)
}

pub(crate) fn items_end(image: &[u8]) -> u32
    ensures { (result ≡ instances.instance_end image.now) × (result < 1000000) }
{
    slots_end(image) + 4 * (number_at(image, 3) as u32)
}

// The tables.
pub fn nodes_of(image: &[u8]) -> &[u8]
    ensures { result.now ≡ tables.nodes_in image.now }
{
    part_of(image, 8, 4 * (number_at(image, 1) as u32))
}

pub fn slots_of(image: &[u8]) -> &[u8]
    ensures { result.now ≡ tables.slots_in image.now }
{
    part_of(image, nodes_end(image), 5 * (number_at(image, 2) as u32))
}

pub fn items_of(image: &[u8]) -> &[u8]
    ensures { result.now ≡ tables.items_in image.now }
{
    part_of(image, slots_end(image), 4 * (number_at(image, 3) as u32))
}
