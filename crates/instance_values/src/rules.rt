// Rules 22, 24 and 25: nodes, slots and items against the model.
ghost use Rattle.std.specs.Prelude.{◌≡◌, ◌<◌, IfSome};
ghost use Rattle.csdl.specs.Search.{first_from, found};
ghost use Rattle.csdl.specs.Conforms.{node22, slot24, slot_of_item, item_property, is_null, carries_node, item25of, item25};
ghost use Rattle.instance_image.specs.Limits.{FewSlots};
ghost use Rattle.instance_image.specs.Read.{instance_read};
ghost use Rattle.model_image.specs.Read.{model_read};
ghost use Rattle.instance_runs.specs.Tables.{Tabulates};
ghost use Rattle.instance_values.specs.States.{unlike_property};

use csdl::SlotState;
use instance_image::instance::Instance;
use model_image::model::Model;
use type_hierarchy::hierarchy::Hierarchy;
use type_hierarchy::kinds::structured;

// Rule 22.
fn node_22(model: &Model, instance: &Instance, v: u16) -> bool
    ensures { result ≡ node22 (model_read model.now) (instance_read instance.now) v }
{
    let t = instance.node_type(v);
    !structured(model, t) | model.type_abstract(t)
}

// Whether a state is not that of a property, by whether the property is a collection and whether it is nullable.
fn unlike_property(state: Option<SlotState>, collection: bool, nullable: bool) -> bool
    ensures { result ≡ unlike_property state collection nullable }
{
    match state {
        Some(SlotState::Null) => collection | !nullable,
        Some(SlotState::Single) => collection,
        Some(SlotState::Collection) => !collection,
        None => false,
    }
}

// Rule 24.
fn slot_24(model: &Model, instance: &Instance, s: u16) -> bool
    ensures { result ≡ slot24 (model_read model.now) (instance_read instance.now) s }
{
    let p = instance.slot_property(s);
    unlike_property(
        instance.slot_state(s),
        model.property_collection(p),
        model.property_nullable(p),
    )
}

// Whether an item is null.
pub fn is_null(instance: &Instance, k: u16) -> bool
    ensures { result ≡ is_null (instance_read instance.now) k }
{
    instance.item_ref(k) == 255 && instance.item_handle(k) == 0
}

// Whether item k carries its node's type, at type u, and the node's number.
fn carries_node(hierarchy: &Hierarchy, instance: &Instance, u: u16, k: u16) -> bool
    ensures { result ≡ carries_node (model_read hierarchy.now.model) (instance_read instance.now) u k }
{
    let handle = instance.item_handle(k);
    let t = instance.item_ref(k);
    handle < instance.node_count() as u32
        && t == instance.node_type(handle as u16)
        && hierarchy.ancestor_or_self(u, t)
}

// Rule 25 of item k of property p.
fn item_25_of(hierarchy: &Hierarchy, instance: &Instance, p: u16, k: u16) -> bool
    ensures { result ≡ item25of (model_read hierarchy.now.model) (instance_read instance.now) p k }
{
    let model = &hierarchy.model;
    if is_null(instance, k) {
        return !(model.property_collection(p) & model.property_nullable(p));
    }
    let u = model.property_type_ref(p);
    if structured(model, u) {
        return !carries_node(hierarchy, instance, u, k);
    }
    instance.item_ref(k) != u
}

// The property of the slot that has item k. `item_slots` has for each item the slot whose run has it.
pub fn item_property(instance: &Instance, item_slots: &[u16], k: u16) -> Option<u16>
    requires { (k < 2048) × Tabulates (λ k. slot_of_item (instance_read instance.now) k) 2048 item_slots.now }
    ensures { result ≡ found (item_property (instance_read instance.now) k) }
{
    let slot = item_slots[k as usize].checked_sub(1)?;
    Some(instance.slot_property(slot))
}

// Rule 25 of item k.
fn item_25(hierarchy: &Hierarchy, instance: &Instance, item_slots: &[u16], k: u16) -> bool
    requires { (k < 2048) × Tabulates (λ k. slot_of_item (instance_read instance.now) k) 2048 item_slots.now }
    ensures { result ≡ item25 (model_read hierarchy.now.model) (instance_read instance.now) k }
{
    match item_property(instance, item_slots, k) {
        Some(p) => item_25_of(hierarchy, instance, p, k),
        None => false,
    }
}

// The first node that breaks rule 22.
pub fn first_22(model: &Model, instance: &Instance) -> Option<u16>
    ensures value { result ≡ found (first_from (λ v. node22 (model_read model.now) (instance_read instance.now) v) 0 (instance_read instance.now).nodes) }
    ensures bound { IfSome result (λ k. k < 256) }
{
    (0..instance.node_count()).find(|v| node_22(model, instance, *v))
}

// The first slot that breaks rule 24.
pub fn first_24(model: &Model, instance: &Instance) -> Option<u16>
    requires { FewSlots instance.now.slots.now }
    ensures value { result ≡ found (first_from (λ s. slot24 (model_read model.now) (instance_read instance.now) s) 0 (instance_read instance.now).slots) }
    ensures bound { IfSome result (λ k. k < 1024) }
{
    (0..instance.slot_count()).find(|s| slot_24(model, instance, *s))
}

// The first item that breaks rule 25. `item_slots` has for each item the slot whose run has it.
pub fn first_25(model: &Model, instance: &Instance, item_slots: &[u16]) -> Option<u16>
    requires { Tabulates (λ k. slot_of_item (instance_read instance.now) k) 2048 item_slots.now }
    ensures value { result ≡ found (first_from (λ k. item25 (model_read model.now) (instance_read instance.now) k) 0 (instance_read instance.now).items) }
    ensures bound { IfSome result (λ k. k < 2048) }
{
    let hierarchy = Hierarchy::of(*model);
    (0..instance.item_count()).find(|k| item_25(&hierarchy, instance, item_slots, *k))
}
