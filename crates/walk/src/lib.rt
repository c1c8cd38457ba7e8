// The walk of a path of the model through an instance.
#![tactic(auto)]

ghost use Rattle.instance_image.specs.Read.{instance_read};
ghost use Rattle.model_image.specs.Read.{model_read};
ghost use Rattle.std.specs.Prelude.{◌≡◌, ◌+◌, ◌≤◌, ◌<◌, length};
ghost use Rattle.std.proofs.lemmas.List.Edits.{sets};
ghost use Rattle.csdl.specs.Instance.{instance_in};
ghost use Rattle.csdl.specs.Verdict.{walk_means};
ghost use Rattle.csdl.specs.Walk.{walk_answer, walk_buffer};
ghost use Rattle.walk.specs.Along.{bytes_along, opened_along};
ghost use Rattle.walk.specs.Opened.{opened_of};

use csdl::{Refusal, Run, Walked};
use instance_check::check_both;
use instance_image::instance::Instance;
use model_image::model::Model;
use type_hierarchy::hierarchy::Hierarchy;
use walk_items::{Done, Position, walk_from};
use walk_path::{choose, chosen_path, refused_by};
use walk_step::Item;

// The walk along a run of segments from node v.
fn walk_along(model: Model, instance: &Instance, run: Run, v: u16, results: &mut [u8]) -> Done
    requires end_small { run.first + run.count < 65536 }
    requires v_in_bounds { length (bytes_along (model_read model) (instance_read instance.now) run v) ≤ length results.old }
    requires v_len_bound { length (opened_along (model_read model) (instance_read instance.now) run v) < 65536 }
    ensures results_after { results.new ≡ sets results.old 0 (bytes_along (model_read model.entry) (instance_read instance.now) run v) }
    ensures end_value { result.end ≡ length (bytes_along (model_read model.entry) (instance_read instance.now) run v) }
    ensures opened_value { result.opened ≡ length (opened_along (model_read model.entry) (instance_read instance.now) run v) }
{
    let hierarchy = Hierarchy::of(model);
    let here = Position {
        k: run.first,
        left: run.count,
        item: Item {
            t: instance.node_type(v) as u8,
            v: u32::from(v),
        },
        end: 0,
    };
    walk_from(&hierarchy, instance, here, results)
}

// The walk of path 0 or 1 of the record at a place, from a node: the check of the instance first, then rules 27 to 29.
// The results go into the buffer as items; a refusal leaves every byte.
pub fn walk(
    model: &[u8],
    instance: &[u8],
    place: u32,
    path: u32,
    node: u32,
    results: &mut [u8],
) -> Result<Walked, Refusal>
    ensures result_value { walk_means result ≡ walk_answer model.now instance.now place path node results.old }
    ensures results_after { results.new ≡ walk_buffer model.now instance.now place path node results.old }
    ensures result_bound { opened_of (walk_means result) ≤ (instance_in instance.now).slots }
{
    let (model, instance) = check_both(model, instance)?;
    let chosen = choose(&model, place, path);
    if let Some(rule) = refused_by(&model, &instance, chosen, node, results) {
        return Err(Refusal { rule, place: 0 });
    }
    let run = chosen_path(&model, chosen);
    let done = walk_along(model, &instance, run, node as u16, results);
    Ok(Walked {
        results: (done.end / 4) as u16,
        opened: done.opened,
    })
}
