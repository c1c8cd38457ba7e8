// Rule 26: what each item holds, who holds a node, and what lies within it.
#![tactic(auto, unfolding(crate::specs::Graph::node_in, crate::specs::Graph::held_if, crate::specs::Rows::in_row))]

mod arrays;
mod rows;

ghost use Rattle.std.specs.Prelude.{◌≡◌, ℕ, ◌+◌, ◌≤◌, ◌<◌, ltb, get_or, IfSome};
ghost use Rattle.csdl.specs.Search.{any_from, first_from, found};
ghost use Rattle.csdl.specs.Climb as climb;
ghost use Rattle.csdl.specs.Find as find;
ghost use Rattle.csdl.specs.Conforms.{slot_of_item, integral_item, node26};
ghost use Rattle.instance_image.specs.Limits.{FewSlots};
ghost use Rattle.instance_image.specs.Read.{instance_read};
ghost use Rattle.model_image.specs.Read.{model_read};
ghost use Rattle.instance_runs.specs.Tables.{Tabulates, to_two};
ghost use Rattle.instance_containment.specs.Graph as graph;
ghost use Rattle.instance_containment.specs.Integrals.{Integrals};

use arrays::{entry, held_run, node_of, number_at, read_at};
use instance_image::instance::Instance;
use instance_runs::runs::{nodes_of_slots, one_more, over_runs};
use instance_values::rules::{is_null, item_property};
use model_image::model::Model;
use rows::first_by_rows;
use type_hierarchy::steps::integral;
use type_names::wide::{in_wide, with_wide};

// The properties whose items are integral, as a set.
fn integrals_of(model: &Model) -> [u64; 8]
    ensures { Integrals (model_read model.now) result }
{
    let mut set = [0u64; 8];
    for p in 0..model.property_count() {
        if integral(model, p) {
            // In a variable of its own: where a call's result goes into an array that is lent, the check makes no proof.
            let next = with_wide(set, p);
            set = next;
        }
    }
    set
}

// Whether the items of property p are integral.
fn is_integral(model: &Model, integrals: &[u64], p: u16) -> bool
    requires { Integrals (model_read model.now) integrals.now }
    ensures { result ≡ find.integral (model_read model.now) p }
{
    if p < model.property_count() {
        return in_wide(integrals, 0, p);
    }
    integral(model, p)
}

// Whether item k stands in a slot of an integral property. `item_slots` has for each item the slot whose run has it.
fn integral_item(
    model: &Model,
    instance: &Instance,
    integrals: &[u64],
    item_slots: &[u16],
    k: u16,
) -> bool
    requires { Integrals (model_read model.now) integrals.now × (k < 2048) × Tabulates (λ k. slot_of_item (instance_read instance.now) k) 2048 item_slots.now }
    ensures { result ≡ integral_item (model_read model.now) (instance_read instance.now) k }
{
    match item_property(instance, item_slots, k) {
        Some(p) => is_integral(model, integrals, p),
        None => false,
    }
}

// The node that item k holds, if it is an integral item.
fn held_by(instance: &Instance, inside: bool, k: u16) -> Option<u16>
    ensures value { result ≡ found (graph.held_if (instance_read instance.now) inside k) }
    ensures bound { IfSome result (λ w. w < 256) }
{
    if !inside {
        return None;
    }
    let handle = instance.item_handle(k);
    if handle < instance.node_count() as u32 && !is_null(instance, k) {
        return Some(handle as u16);
    }
    None
}

// For each item the node that it holds through an integral property.
fn held_nodes(model: &Model, instance: &Instance, item_slots: &[u16]) -> [u16; 2048]
    requires { Tabulates (λ k. slot_of_item (instance_read instance.now) k) 2048 item_slots.now }
    ensures { (k : ℕ) → k < (instance_read instance.now).items → get_or result k 0 ≡ graph.held_by (model_read model.now) (instance_read instance.now) k }
{
    let integrals = integrals_of(model);
    let mut array = [0u16; 2048];
    for k in 0..instance.item_count() {
        let inside = integral_item(model, instance, &integrals, item_slots, k);
        array[k as usize] = entry(held_by(instance, inside, k));
    }
    array
}

// For each node how many of the c items hold it, at most 2.
fn held_times(to: &[u16], c: u16) -> [u16; 256]
    ensures { Tabulates (λ w. to_two (graph.times_in (graph.entry to.now) c w)) 256 result }
{
    over_runs(c, |k| held_run(to, k), |_, x| one_more(x))
}

// For each node the node that holds it, by the first of the c items that does.
fn holders_of(item_slots: &[u16], slot_nodes: &[u16], to: &[u16], c: u16) -> [u16; 256]
    ensures { Tabulates (λ w. graph.holder_from (graph.node_in item_slots.now slot_nodes.now) (graph.entry to.now) w 0 c) 256 result }
{
    over_runs(
        c,
        |k| held_run(to, k),
        |k, _| node_of(item_slots, slot_nodes, k),
    )
}

// Whether a node is held by more than one item.
fn any_twice(times: &[u16], n: u16) -> bool
    ensures { result ≡ any_from (λ w. ltb 1 (get_or times.now w 0)) 0 n }
{
    (0..n).any(|w| 1 < read_at(times, w))
}

// Whether the climb from t by the holders comes to a within so many steps.
fn climbs(holders: &[u16], left: u16, a: u16, t: u16) -> bool
    ensures { result ≡ climb.climb (graph.entry holders.now) left a t }
{
    let mut at = t;
    for _step in 0..left {
        let Some(next) = number_at(holders, at) else {
            return false;
        };
        if next == a {
            return true;
        }
        at = next;
    }
    false
}

// The first of n nodes to which the climb by the holders comes back.
fn first_by_climbs(holders: &[u16], n: u16) -> Option<u16>
    requires { n ≤ 256 }
    ensures value { result ≡ found (first_from (λ w. climb.climb (graph.entry holders.now) (n + 1) w w) 0 n) }
    ensures bound { IfSome result (λ w. w < 256) }
{
    (0..n).find(|w| climbs(holders, n + 1, *w, *w))
}

// The first of n nodes that breaks rule 26, by what the c items hold. Where no node is held twice, the climb by the holders shows what is
// within itself.
fn first_within(item_slots: &[u16], slot_nodes: &[u16], to: &[u16], c: u16, n: u16) -> Option<u16>
    requires { (n ≤ 256) × ((k : ℕ) → graph.node_in item_slots.now slot_nodes.now k ≤ n) }
    ensures value { result ≡ found (first_from (λ w. graph.node26_in (graph.node_in item_slots.now slot_nodes.now) (graph.entry to.now) c n w) 0 n) }
    ensures bound { IfSome result (λ w. w < 256) }
{
    let times = held_times(to, c);
    if any_twice(&times, n) {
        return first_by_rows(item_slots, slot_nodes, to, &times, c, n);
    }
    let holders = holders_of(item_slots, slot_nodes, to, c);
    first_by_climbs(&holders, n)
}

// The first node that breaks rule 26. `item_slots` has for each item the slot whose run has it.
pub fn first_26(model: &Model, instance: &Instance, item_slots: &[u16]) -> Option<u16>
    requires { FewSlots instance.now.slots.now × Tabulates (λ k. slot_of_item (instance_read instance.now) k) 2048 item_slots.now }
    ensures value { result ≡ found (first_from (λ w. node26 (model_read model.now) (instance_read instance.now) w) 0 (instance_read instance.now).nodes) }
    ensures bound { IfSome result (λ w. w < 256) }
{
    let slot_nodes = nodes_of_slots(instance);
    let to = held_nodes(model, instance, item_slots);
    first_within(
        item_slots,
        &slot_nodes,
        &to,
        instance.item_count(),
        instance.node_count(),
    )
}
