// The path that a walk takes, and rules 27 to 29.
#![tactic(auto)]

ghost use Rattle.instance_image.specs.Limits.{FewSlots};
ghost use Rattle.instance_image.specs.Read.{instance_read};
ghost use Rattle.model_image.specs.Read.{model_read};
ghost use Rattle.std.specs.Prelude.{◌≡◌, ◌<◌};
ghost use Rattle.csdl.specs.Model.{record_at};
ghost use Rattle.csdl.specs.Walk.{if_present, path_chosen, chosen_start, walk27, walk28, walk29};
ghost use Rattle.walk_path.specs.Chosen.{chosen_path};
ghost use Rattle.walk_path.specs.Refusal.{refusal};

use csdl::{Holder, PathKind, Record, Run};
use instance_image::instance::Instance;
use model_image::model::Model;
use path_kinds::kinds::{path_of, start_of};
use type_hierarchy::bases::ancestor_or_self;

// The record as a holder of the kind, if it holds such a path.
fn if_present(model: &Model, kind: PathKind, number: u16) -> Option<Holder>
    ensures { result ≡ if_present (model_read model.now) kind number }
{
    if path_of(model, kind, number).count == 0 {
        return None;
    }
    Some(Holder { kind, number })
}

// The path of a number of the record, if it holds such a path.
fn path_chosen(model: &Model, rec: Record, path: u32) -> Option<Holder>
    ensures { result ≡ path_chosen (model_read model.now) rec path }
{
    match (rec, path) {
        (Record::OfProperty(p), 0) => if_present(model, PathKind::Partner, p),
        (Record::OfKey(k), 0) => if_present(model, PathKind::Key, k),
        (Record::OfConstraint(c), 0) => if_present(model, PathKind::Dependent, c),
        (Record::OfConstraint(c), 1) => if_present(model, PathKind::Principal, c),
        (Record::OfBinding(b), 0) => if_present(model, PathKind::Binding, b),
        (Record::OfBinding(b), 1) => if_present(model, PathKind::Target, b),
        _ => None,
    }
}

// The path of a number of the record at a place.
pub fn choose(model: &Model, place: u32, path: u32) -> Option<Holder>
    ensures { result ≡ path_chosen (model_read model.now) (record_at (model_read model.now) place) path }
{
    let places = model.places();
    match u16::try_from(place) {
        Ok(place) => path_chosen(model, places.record_at(place), path),
        Err(_) => None,
    }
}

// The segments of the path, and the type at which it starts.
pub fn chosen_path(model: &Model, chosen: Option<Holder>) -> Run
    ensures { (result.first ≡ (chosen_path (model_read model.now) chosen).first) × (result.count ≡ (chosen_path (model_read model.now) chosen).count) × (result.first < 2048) × (result.count < 16) }
{
    match chosen {
        Some(holder) => path_of(model, holder.kind, holder.number),
        None => Run { first: 0, count: 0 },
    }
}

fn chosen_start(model: &Model, chosen: Option<Holder>) -> u16
    ensures { result ≡ chosen_start (model_read model.now) chosen }
{
    match chosen {
        Some(holder) => start_of(model, holder.kind, holder.number),
        None => 64,
    }
}

// Rule 27.
fn walk_27(chosen: Option<Holder>) -> bool
    ensures { result ≡ walk27 chosen }
{
    chosen.is_none()
}

// Rule 28: t is the type at which the path starts, v the start node.
#[tactic(auto, unfolding(csdl::specs::Walk::walk28))]
fn walk_28(model: &Model, instance: &Instance, t: u16, v: u32) -> bool
    ensures { result ≡ walk28 (model_read model.now) (instance_read instance.now) t v }
{
    if v >= u32::from(instance.node_count()) {
        return true;
    }
    !ancestor_or_self(model, t, instance.node_type(v as u16))
}

// Rule 29.
#[tactic(auto, unfolding(csdl::specs::Walk::walk29))]
fn walk_29(instance: &Instance, results: &[u8]) -> bool
    requires { FewSlots instance.now.slots.now }
    ensures { result ≡ walk29 (instance_read instance.now) results.now }
{
    results.len()
        < 4 * (1 + usize::from(instance.slot_count()) + usize::from(instance.item_count()))
}

// The first broken of rules 27 to 29, for a walk from the node into the buffer.
pub fn refused_by(
    model: &Model,
    instance: &Instance,
    chosen: Option<Holder>,
    node: u32,
    results: &[u8],
) -> Option<u16>
    requires { FewSlots instance.now.slots.now }
    ensures { result ≡ refusal (walk27 chosen) (walk28 (model_read model.now) (instance_read instance.now) (chosen_start (model_read model.now) chosen) node) (walk29 (instance_read instance.now) results.now) }
{
    let no_path = walk_27(chosen);
    let bad_start = walk_28(model, instance, chosen_start(model, chosen), node);
    if no_path {
        return Some(27);
    }
    if bad_start {
        return Some(28);
    }
    if walk_29(instance, results) {
        return Some(29);
    }
    None
}
