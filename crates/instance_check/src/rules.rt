// The rules 21 to 26 of an instance in their order: the first that is broken, and the lowest place that breaks it.
ghost use Rattle.std.specs.Prelude.{◌≡◌};
ghost use Rattle.csdl.specs.Conforms as rules;
ghost use Rattle.csdl.specs.Instance.{instance_places};
ghost use Rattle.csdl.specs.Search.{found};
ghost use Rattle.csdl.specs.Verdict.{verdict};
ghost use Rattle.instance_check.specs.Stages.{lowest_instance_place, ItemSlots};
ghost use Rattle.instance_image.specs.Limits.{FewSlots};
ghost use Rattle.instance_image.specs.Read.{instance_read};
ghost use Rattle.model_image.specs.Limits.{FewProperties};
ghost use Rattle.model_image.specs.Read.{model_read};
ghost use Rattle.model_rules.specs.Stages.{ResultOf};

use csdl::Refusal;
use instance_containment::first_26;
use instance_image::instance::Instance;
use instance_runs::form::{first_item_21, first_node_21, first_slot_21};
use instance_runs::runs::slots_of_items;
use instance_values::rules::{first_22, first_24, first_25};
use instance_values::slots::first_23;
use model_image::model::Model;
use model_rules::{place_in, refused_at};

// Rule 21, of nodes, slots and items; the later tables are gone through only if the earlier ones are in order. Its tables, and those
// of rule 23, are not to lie on the stack beside those of rule 26.
#[inline(never)]
fn lowest_21(model: &Model, instance: &Instance) -> Option<u16>
    requires { FewSlots instance.now.slots.now }
    ensures { result ≡ found (lowest_instance_place (model_read model.now) (instance_read instance.now) rules.rule21) }
{
    let of_node = first_node_21(model, instance);
    if of_node.is_some() {
        return of_node;
    }
    let of_slot = place_in(instance.slots_at(), first_slot_21(model, instance));
    if of_slot.is_some() {
        return of_slot;
    }
    place_in(instance.items_at(), first_item_21(instance))
}

// Rules 22 and 23, of nodes.
fn lowest_22(model: &Model, instance: &Instance) -> Option<u16>
    ensures { result ≡ found (lowest_instance_place (model_read model.now) (instance_read instance.now) rules.rule22) }
{
    first_22(model, instance)
}

#[inline(never)]
fn lowest_23(model: &Model, instance: &Instance) -> Option<u16>
    requires { FewProperties model.now.properties.now }
    ensures { result ≡ found (lowest_instance_place (model_read model.now) (instance_read instance.now) rules.rule23) }
{
    first_23(model, instance)
}

// Rule 24, of slots.
fn lowest_24(model: &Model, instance: &Instance) -> Option<u16>
    requires { FewSlots instance.now.slots.now }
    ensures { result ≡ found (lowest_instance_place (model_read model.now) (instance_read instance.now) rules.rule24) }
{
    place_in(instance.slots_at(), first_24(model, instance))
}

// Rule 25, of items. `item_slots` has for each item the slot whose run has it.
fn lowest_25(model: &Model, instance: &Instance, item_slots: &[u16]) -> Option<u16>
    requires { FewSlots instance.now.slots.now × ItemSlots (instance_read instance.now) item_slots.now }
    ensures { result ≡ found (lowest_instance_place (model_read model.now) (instance_read instance.now) rules.rule25) }
{
    place_in(instance.items_at(), first_25(model, instance, item_slots))
}

// Rule 26, of nodes.
fn lowest_26(model: &Model, instance: &Instance, item_slots: &[u16]) -> Option<u16>
    requires { FewSlots instance.now.slots.now × ItemSlots (instance_read instance.now) item_slots.now }
    ensures { result ≡ found (lowest_instance_place (model_read model.now) (instance_read instance.now) rules.rule26) }
{
    first_26(model, instance, item_slots)
}

// Once rule 21 is unbroken, each item is in one run, and the slots of the items are found by going through each item once.
#[tactic(auto, using(model_rules::proofs::Steps::steps), unfolding(crate::specs::Stages::lowest_instance_place, csdl::specs::Conforms::instance_stages))]
pub(crate) fn check_21_to_26(model: &Model, instance: &Instance) -> Result<(), Refusal>
    requires { FewProperties model.now.properties.now × FewSlots instance.now.slots.now }
    ensures { ResultOf result (λ o. verdict (instance_places (instance_read instance.now)) (rules.instance_stages (model_read model.now) (instance_read instance.now)) o) }
{
    refused_at(21, lowest_21(model, instance))?;
    let item_slots = slots_of_items(instance);
    refused_at(22, lowest_22(model, instance))?;
    refused_at(23, lowest_23(model, instance))?;
    refused_at(24, lowest_24(model, instance))?;
    refused_at(25, lowest_25(model, instance, &item_slots))?;
    refused_at(26, lowest_26(model, instance, &item_slots))
}
