// The functions that the exam portal, written in C, calls. A slice is a pointer and then a length; buffers may not overlap.
// The result is one 64-bit number: a refusal is rule * 2^32 + place, and the rule is never 0; an accepted model is its number of
// segments, an accepted instance and accepted members are 0, and a walk is results * 65536 + opened slots. outside/c/tour_model.h says the same for C.
// Each contract has the equations of the word and of the buffer, and the promise that follows from them, clause by clause: crates/demands/specs/Demands.
#![tactic(auto)]

ghost use Rattle.std.specs.Prelude.{◌≡◌, ◌≤◌};
ghost use Rattle.csdl.specs.Conforms.{instance_answer};
ghost use Rattle.csdl.specs.Instance.{instance_in};
ghost use Rattle.csdl.specs.Members.{members_answer};
ghost use Rattle.csdl.specs.Verdict.{model_answer, model_buffer};
ghost use Rattle.csdl.specs.Walk.{walk_answer, walk_buffer};
ghost use Rattle.demands.specs.Word.{word, upper, opened_in};
ghost use Rattle.demands.specs.Demands.{ModelPromise, InstancePromise, MembersPromise, WalkPromise};

use demands::word_of;
use enumeration_members::check_members;
use instance_check::check_instance;
use model_check::check_model;
use walk::walk;

// Checks a model; an accepted one has the resolution of its segments written into the buffer, two bytes each.
#[unsafe(no_mangle)]
pub extern "C" fn tour_check_model(image: &[u8], resolution: &mut [u8]) -> u64
    ensures value { result ≡ word (model_answer image.now resolution.old) }
    ensures resolution_after { resolution.new ≡ model_buffer image.now resolution.old }
    ensures model_promise { ModelPromise image.now resolution.old result resolution.new }
{
    word_of(check_model(image, resolution))
}

// Checks an instance against its model.
#[unsafe(no_mangle)]
pub extern "C" fn tour_check_instance(model: &[u8], instance: &[u8]) -> u64
    ensures value { result ≡ word (instance_answer model.now instance.now) }
    ensures instance_promise { InstancePromise model.now instance.now result }
{
    word_of(check_instance(model, instance))
}

// Checks the members of a model's enumerations.
#[unsafe(no_mangle)]
pub extern "C" fn tour_check_members(model: &[u8], members: &[u8]) -> u64
    ensures value { result ≡ word (members_answer model.now members.now) }
    ensures members_promise { MembersPromise model.now members.now result }
{
    word_of(check_members(model, members))
}

// Walks a path of the record at a place from a node; the results are written into the buffer as items.
#[unsafe(no_mangle)]
pub extern "C" fn tour_walk(
    model: &[u8],
    instance: &[u8],
    place: u32,
    path: u32,
    node: u32,
    results: &mut [u8],
) -> u64
    ensures value { result ≡ word (walk_answer model.now instance.now place path node results.old) }
    ensures results_after { results.new ≡ walk_buffer model.now instance.now place path node results.old }
    ensures result_bound { upper result ≡ 0 → opened_in result ≤ (instance_in instance.now).slots }
    ensures walk_promise { WalkPromise model.now instance.now place path node results.old result results.new }
{
    word_of(walk(model, instance, place, path, node, results))
}
