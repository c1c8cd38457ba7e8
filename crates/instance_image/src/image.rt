// The form of an instance image: rule 20.
ghost use Rattle.std.specs.Prelude.{◌≡◌};
ghost use Rattle.csdl.specs.Instance.{image20};

use crate::tables::items_end;
use csdl::VERSION;
use packed::number_at;

// Rule 20. The header's numbers are the version and the counts of nodes, slots and items.
pub fn bad_instance(image: &[u8]) -> bool
    ensures { result ≡ image20 image.now }
{
    let version = number_at(image, 0);
    let nodes = number_at(image, 1);
    let slots = number_at(image, 2);
    let items = number_at(image, 3);
    let end = items_end(image);
    (image.len() < 8)
        | (version != VERSION)
        | ((256 < nodes) | (1024 < slots) | (2048 < items))
        | (image.len() != end as usize)
}
