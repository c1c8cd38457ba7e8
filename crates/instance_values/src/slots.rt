// Rule 23: the slots of a node are the names of its type, once each. The names of a type are found once and kept as a row of bits; each
// node is compared with the row of its type.
ghost use Rattle.std.specs.Prelude.{◌≡◌, false, ℕ, ◌+◌, ◌≤◌, ◌<◌, length, get_or, IfSome};
ghost use Rattle.csdl.specs.Search.{first_from, found};
ghost use Rattle.csdl.specs.Conforms.{node23};
ghost use Rattle.instance_image.specs.Read.{instance_read};
ghost use Rattle.model_image.specs.Limits.{FewProperties};
ghost use Rattle.model_image.specs.Read.{model_read};
ghost use Rattle.name_classes.specs.Classes.{name_of, Ranked};
ghost use Rattle.type_names.specs.Wide.{wide};
ghost use Rattle.instance_values.specs.Rows.{unlike_set};

use csdl::Run;
use instance_image::instance::Instance;
use model_image::model::Model;
use name_classes::first_properties::ranked;
use type_hierarchy::type_sets::{in_set, with_one};
use type_names::members::names_of;
use type_names::wide::{in_wide, unlike, with_row, with_wide};

// A new set gets a variable of its own, `next`: where a call's result goes into an array that is lent, the check makes no proof.

// Whether the slots of a run are not the properties of a set, once each; properties from n on do not count.
fn unlike_run(instance: &Instance, rows: &[u64], from: usize, n: u16, run: Run) -> bool
    requires { (from + 8 ≤ length rows.now) × (n ≤ 512) × (run.first < 2048) × (run.count < 1024) × ((p : ℕ) → n ≤ p → p < 512 → wide rows.now from p ≡ false) }
    ensures { result ≡ unlike_set (instance_read instance.now) rows.now from n run }
{
    let mut seen = [0u64; 8];
    for k in 0..run.count {
        let p = instance.slot_property(run.first + k);
        if p < n {
            if !in_wide(rows, from, p) | in_wide(&seen, 0, p) {
                return true;
            }
            let next = with_wide(seen, p);
            seen = next;
        }
    }
    unlike(&seen, rows, from)
}

// Rule 23 of the nodes one after the other.
fn nodes_23(model: &Model, index: &[u16], instance: &Instance) -> Option<u16>
    requires { FewProperties model.now.properties.now × Ranked (λ p. name_of model.now.properties.now model.now.names.now p) ((model_read model.now).properties) (get_or index.now 1536 0) index.now }
    ensures value { result ≡ found (first_from (λ v. node23 (model_read model.now) (instance_read instance.now) v) 0 (instance_read instance.now).nodes) }
    ensures bound { IfSome result (λ k. k < 256) }
{
    let all = model.property_count();
    let mut rows = [0u64; 512];
    let mut done: u64 = 0;
    for v in 0..instance.node_count() {
        let t = instance.node_type(v);
        if !in_set(done, t) {
            let row = names_of(model, index, t);
            let next = with_row(rows, row, t);
            rows = next;
            done = with_one(done, t);
        }
        if unlike_run(
            instance,
            &rows,
            8 * (t as usize),
            all,
            instance.node_slots(v),
        ) {
            return Some(v);
        }
    }
    None
}

// The first node that breaks rule 23.
pub fn first_23(model: &Model, instance: &Instance) -> Option<u16>
    requires { FewProperties model.now.properties.now }
    ensures value { result ≡ found (first_from (λ v. node23 (model_read model.now) (instance_read instance.now) v) 0 (instance_read instance.now).nodes) }
    ensures bound { IfSome result (λ k. k < 256) }
{
    if instance.node_count() == 0 {
        return None;
    }
    let index = ranked(model);
    nodes_23(model, &index, instance)
}
