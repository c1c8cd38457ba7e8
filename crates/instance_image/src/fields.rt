// Nodes, slots and items: one method for each field; a record past the end of its table reads as zeros.
ghost use Rattle.std.specs.Prelude.{◌≡◌, ◌≤◌, ◌<◌};
ghost use Rattle.csdl.specs.Kinds.{state_of};
ghost use Rattle.instance_image.specs.Limits.{FewSlots};
ghost use Rattle.instance_image.specs.Read.{instance_read};

use crate::instance::Instance;
use csdl::{Run, SlotState};
use packed::{field, field16, two_fields};

impl<'a> Instance<'a> {
    // How many records the table of nodes has.
    pub fn node_count(&self) -> u16
        ensures { (result ≡ (instance_read self.now).nodes) × (result ≤ 256) }
    {
        (self.nodes.len() / 4) as u16
    }

    pub fn node_type(&self, v: u16) -> u16
        ensures { (result ≡ (instance_read self.now).node_type v) × (result < 64) }
    {
        field16(self.nodes, 32 * (v as u32), 6)
    }

    pub fn node_slots(&self, v: u16) -> Run
        ensures { (result.first ≡ ((instance_read self.now).node_slots v).first) × (result.count ≡ ((instance_read self.now).node_slots v).count) × (result.first < 2048) × (result.count < 1024) }
    {
        let both = two_fields(self.nodes, 32 * (v as u32) + 6, 11, 10);
        Run {
            first: both.first,
            count: both.second,
        }
    }

    pub fn node_spare(&self, v: u16) -> u16
        ensures { (result ≡ (instance_read self.now).node_spare v) × (result < 32) }
    {
        field16(self.nodes, 32 * (v as u32) + 27, 5)
    }

    // How many records the table of slots has, which is asked to have no more than rule 20 allows.
    pub fn slot_count(&self) -> u16
        requires { FewSlots self.now.slots.now }
        ensures { (result ≡ (instance_read self.now).slots) × (result ≤ 1024) }
    {
        (self.slots.len() / 5) as u16
    }

    pub fn slot_property(&self, s: u16) -> u16
        ensures { (result ≡ (instance_read self.now).slot_property s) × (result < 512) }
    {
        field16(self.slots, 40 * (s as u32), 9)
    }

    pub fn slot_state(&self, s: u16) -> Option<SlotState>
        ensures { result ≡ state_of ((instance_read self.now).state s) }
    {
        match field16(self.slots, 40 * (s as u32) + 9, 2) {
            0 => Some(SlotState::Null),
            1 => Some(SlotState::Single),
            2 => Some(SlotState::Collection),
            _ => None,
        }
    }

    pub fn slot_items(&self, s: u16) -> Run
        ensures { (result.first ≡ ((instance_read self.now).slot_items s).first) × (result.count ≡ ((instance_read self.now).slot_items s).count) × (result.first < 4096) × (result.count < 4096) }
    {
        let both = two_fields(self.slots, 40 * (s as u32) + 11, 12, 12);
        Run {
            first: both.first,
            count: both.second,
        }
    }

    pub fn slot_spare(&self, s: u16) -> u16
        ensures { (result ≡ (instance_read self.now).slot_spare s) × (result < 32) }
    {
        field16(self.slots, 40 * (s as u32) + 35, 5)
    }

    // How many records the table of items has.
    pub fn item_count(&self) -> u16
        ensures { (result ≡ (instance_read self.now).items) × (result ≤ 2048) }
    {
        (self.items.len() / 4) as u16
    }

    pub fn item_ref(&self, k: u16) -> u16
        ensures { (result ≡ (instance_read self.now).item_ref k) × (result < 256) }
    {
        field16(self.items, 32 * (k as u32), 8)
    }

    pub fn item_handle(&self, k: u16) -> u32
        ensures { (result ≡ (instance_read self.now).item_handle k) × (result < 16777216) }
    {
        field(self.items, 32 * (k as u32) + 8, 24) as u32
    }
}
