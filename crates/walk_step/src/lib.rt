// One segment of a walk at one item.
#![tactic(auto, unfolding(crate::specs::Seen::item_in, crate::specs::Seen::contents_of, crate::specs::Seen::next_at))]

ghost use Rattle.instance_image.specs.Read.{instance_read};
ghost use Rattle.model_image.specs.Read.{model_read};
ghost use Rattle.std.specs.Prelude.{◌≡◌, ◌+◌, ◌<◌};
ghost use Rattle.packed.specs.Bytes.{same};
ghost use Rattle.csdl.specs.Model.{property_text};
ghost use Rattle.csdl.specs.Search.{found};
ghost use Rattle.csdl.specs.Walk.{slot_named};
ghost use Rattle.walk_step.specs.Seen.{own_next, no_next, contents_of, kept_next, next_at, item_in};

use csdl::SlotState;
use instance_image::instance::Instance;
use model_image::model::Model;
use packed::same_bytes;
use path_resolution::wide::ancestor_or_self;
use type_hierarchy::hierarchy::Hierarchy;
use type_hierarchy::kinds::structured;

// Whether the property of slot s has the name.
fn has_name(model: &Model, instance: &Instance, name: &[u8], s: u16) -> bool
    ensures { result ≡ same (property_text (model_read model.now) ((instance_read instance.now).slot_property s)) name.now }
{
    same_bytes(model.property_text(instance.slot_property(s)), name)
}

// The slot of the name in node v. The slot's property may be another declaration than the one that the path's segment resolves to, so the names
// are compared and not the numbers of the properties.
fn slot_named(model: &Model, instance: &Instance, name: &[u8], v: u32) -> Option<u16>
    ensures { result ≡ found (slot_named (model_read model.now) (instance_read instance.now) name.now v) }
{
    match u16::try_from(v) {
        Ok(v) => {
            let run = instance.node_slots(v);
            (run.first..run.first + run.count).find(|s| has_name(model, instance, name, *s))
        }
        Err(_) => None,
    }
}

// An item at which a walk stands: its type reference and its handle.
#[derive(Clone, Copy, PartialEq, Eq)]
pub struct Item {
    pub t: u8,
    pub v: u32,
}

// The item that is null.
pub const NULL: Item = Item { t: 255, v: 0 };

// What takes the place of an item: one item of its own, or else a run of the table of items; how many slots were opened.
#[derive(Clone, Copy)]
pub struct Next {
    pub opened: u16,
    pub own: Option<Item>,
    pub first: u16,
    pub count: u16,
}

// Item q of what comes next.
pub fn item_in(instance: &Instance, next: Next, q: u16) -> Item
    ensures { result ≡ item_in (instance_read instance.now) next q }
{
    match next.own {
        Some(item) => item,
        None => Item {
            t: instance.item_ref(q) as u8,
            v: instance.item_handle(q),
        },
    }
}

// The item alone.
fn own_next(opened: u16, item: Item) -> Next
    ensures { result ≡ own_next opened item }
{
    Next {
        opened,
        own: Some(item),
        first: 0,
        count: 1,
    }
}

// Nothing.
fn no_next() -> Next
    ensures { result ≡ no_next }
{
    Next {
        opened: 0,
        own: None,
        first: 0,
        count: 0,
    }
}

// What stands in a slot.
fn contents(instance: &Instance, s: u16) -> Next
    ensures value { result ≡ contents_of (instance_read instance.now) s }
    ensures bound { result.first + result.count < 65536 }
{
    match instance.slot_state(s) {
        Some(SlotState::Null) => own_next(1, NULL),
        _ => {
            let run = instance.slot_items(s);
            Next {
                opened: 1,
                own: None,
                first: run.first,
                count: run.count,
            }
        }
    }
}

// A node at a cast: it stays where it is at the type, else null takes its place.
fn kept_next(kept: bool, item: Item) -> Next
    ensures { result ≡ kept_next kept item }
{
    own_next(0, if kept { item } else { NULL })
}

// What takes the place of the item at segment k.
pub fn next_of(hierarchy: &Hierarchy, instance: &Instance, k: u16, item: Item) -> Next
    ensures value { result ≡ next_at (model_read hierarchy.now.model) (instance_read instance.now) k item }
    ensures bound { result.first + result.count < 65536 }
{
    let model = &hierarchy.model;
    if !structured(model, u16::from(item.t)) {
        return no_next();
    }
    if model.segment_cast(k) {
        return kept_next(
            ancestor_or_self(hierarchy, model.segment_type(k), u32::from(item.t)),
            item,
        );
    }
    match slot_named(model, instance, model.segment_text(k), item.v) {
        Some(s) => contents(instance, s),
        None => no_next(),
    }
}
