// Rule 21: the form of nodes, slots and items.
ghost use Rattle.std.specs.Prelude.{◌≡◌, ◌<◌, IfSome};
ghost use Rattle.csdl.specs.Search.{first_from, found};
ghost use Rattle.csdl.specs.Form.{run4cd};
ghost use Rattle.csdl.specs.Conforms.{node21a, slot21b, item21c, nodes_with, slots_with};
ghost use Rattle.instance_image.specs.Limits.{FewSlots};
ghost use Rattle.instance_image.specs.Read.{instance_read};
ghost use Rattle.model_image.specs.Read.{model_read};
ghost use Rattle.instance_runs.specs.Tables.{Tabulates, to_two};
ghost use Rattle.instance_runs.specs.Clauses.{state_unlike, slot_form};

use crate::runs::{nodes_with, slots_with};
use csdl::{Run, SlotState};
use instance_image::instance::Instance;
use model_image::model::Model;

// Whether a run goes past the end of its table, or is empty with a first number that is not 0.
fn bad_run(total: u16, run: Run) -> bool
    ensures { result ≡ run4cd total run }
{
    if run.count == 0 {
        return run.first != 0;
    }
    (total as u32) < run.first as u32 + run.count as u32
}

// 21a.
fn node_21(model: &Model, instance: &Instance, v: u16) -> bool
    requires { FewSlots instance.now.slots.now }
    ensures { result ≡ node21a (model_read model.now) (instance_read instance.now) v }
{
    (instance.node_spare(v) != 0)
        | !(instance.node_type(v) < model.type_count())
        | bad_run(instance.slot_count(), instance.node_slots(v))
}

// Whether a state is none of the three, or has another count of items.
fn state_unlike(state: Option<SlotState>, count: u16) -> bool
    ensures { result ≡ state_unlike state count }
{
    match state {
        Some(SlotState::Null) => count != 0,
        Some(SlotState::Single) => count != 1,
        Some(SlotState::Collection) => false,
        None => true,
    }
}

// 21b, but for the nodes whose run has the slot.
fn slot_form(model: &Model, instance: &Instance, s: u16) -> bool
    ensures { result ≡ slot_form (model_read model.now) (instance_read instance.now) s }
{
    let run = instance.slot_items(s);
    (instance.slot_spare(s) != 0)
        | !(instance.slot_property(s) < model.property_count())
        | state_unlike(instance.slot_state(s), run.count)
        | bad_run(instance.item_count(), run)
}

// 21b. `uses` has in how many runs each slot stands.
fn slot_21(model: &Model, instance: &Instance, uses: &[u16], s: u16) -> bool
    requires { (s < 1024) × Tabulates (λ k. to_two (nodes_with (instance_read instance.now) k)) 1024 uses.now }
    ensures { result ≡ slot21b (model_read model.now) (instance_read instance.now) s }
{
    slot_form(model, instance, s) | (uses[s as usize] != 1)
}

// 21c. `uses` has in how many runs each item stands.
fn item_21(instance: &Instance, uses: &[u16], k: u16) -> bool
    requires { (k < 2048) × Tabulates (λ k. to_two (slots_with (instance_read instance.now) k)) 2048 uses.now }
    ensures { result ≡ item21c (instance_read instance.now) k }
{
    uses[k as usize] != 1
}

// The first node that breaks rule 21.
pub fn first_node_21(model: &Model, instance: &Instance) -> Option<u16>
    requires { FewSlots instance.now.slots.now }
    ensures value { result ≡ found (first_from (λ v. node21a (model_read model.now) (instance_read instance.now) v) 0 (instance_read instance.now).nodes) }
    ensures bound { IfSome result (λ k. k < 256) }
{
    (0..instance.node_count()).find(|v| node_21(model, instance, *v))
}

// The first slot that breaks rule 21.
pub fn first_slot_21(model: &Model, instance: &Instance) -> Option<u16>
    requires { FewSlots instance.now.slots.now }
    ensures value { result ≡ found (first_from (λ s. slot21b (model_read model.now) (instance_read instance.now) s) 0 (instance_read instance.now).slots) }
    ensures bound { IfSome result (λ k. k < 1024) }
{
    let uses = nodes_with(instance);
    (0..instance.slot_count()).find(|s| slot_21(model, instance, &uses, *s))
}

// The first item that breaks rule 21.
pub fn first_item_21(instance: &Instance) -> Option<u16>
    requires { FewSlots instance.now.slots.now }
    ensures value { result ≡ found (first_from (λ k. item21c (instance_read instance.now) k) 0 (instance_read instance.now).items) }
    ensures bound { IfSome result (λ k. k < 2048) }
{
    let uses = slots_with(instance);
    (0..instance.item_count()).find(|k| item_21(instance, &uses, *k))
}
