// The instance in an image that keeps rule 20, and the places of its records.
ghost use Rattle.std.specs.Prelude.{◌≡◌, ◌≤◌};
ghost use Rattle.csdl.specs.Instance as instances;
ghost use Rattle.instance_image.specs.Limits.{FewSlots};
ghost use Rattle.instance_image.specs.Sized.{Sized};
ghost use Rattle.instance_image.specs.Read.{TablesOf, instance_read};

use crate::instance::Instance;
use crate::tables::{items_of, nodes_of, slots_of};

impl<'a> Instance<'a> {
    pub fn read(image: &'a [u8]) -> Self
        requires { Sized image.now }
        ensures value { instance_read result ≡ instances.instance_in image.now }
        ensures tables { TablesOf image.now result }
        ensures few { FewSlots result.slots.now }
    {
        Instance {
            nodes: nodes_of(image),
            slots: slots_of(image),
            items: items_of(image),
        }
    }

    // The place of the first slot, and of the first item.
    pub fn slots_at(&self) -> u16
        ensures { (result ≡ instances.slots_at (instance_read self.now)) × (result ≤ 256) }
    {
        self.node_count()
    }

    pub fn items_at(&self) -> u16
        requires { FewSlots self.now.slots.now }
        ensures { (result ≡ instances.items_at (instance_read self.now)) × (result ≤ 1280) }
    {
        self.slots_at() + self.slot_count()
    }
}
