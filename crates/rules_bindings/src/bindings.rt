// Rule 19: bindings.
ghost use Rattle.std.specs.Prelude.{◌≡◌, ◌+◌, ◌≤◌};
ghost use Rattle.csdl.specs.Search.{first_from, found};
ghost use Rattle.csdl.specs.Paths.{binding19e};
ghost use Rattle.model_image.specs.Read.{model_read};
ghost use Rattle.rules_names.specs.Digests.{Fingerprinted};
ghost use Rattle.rules_bindings.specs.Bindings.{again_bound, binding_again, binding_fingerprint, binding_paths_fail, binding_coded};

use crate::classes::{class_of, other_class};
use crate::forms::{binding_codes, ends_apart, target_codes};
use model_image::model::Model;
use path_resolution::codes::{code_at, end_of, run_of};
use type_hierarchy::hierarchy::Hierarchy;

// The fingerprint of binding b.
fn binding_fingerprint(model: &Model, index: &[u16; 1793], codes: &[u32], b: u16) -> u64
    ensures { result ≡ binding_fingerprint (model_read model.now) index.now codes.now b }
{
    let path = model.binding_path(b);
    let n = path.count;
    let last = if n == 0 {
        0
    } else {
        class_of(index, code_at(codes, path.first + (n - 1)))
    };
    (u64::from(model.binding_child(b)) * 16 + u64::from(n)) * 4294967296 + u64::from(last)
}

// Whether bindings j and b have the same child and paths of the same segments; asked of their fingerprints first.
fn again_bound(
    model: &Model,
    index: &[u16; 1793],
    codes: &[u32],
    fingerprints: &[u64],
    j: u16,
    b: u16,
) -> bool
    requires { (j ≤ b) × Fingerprinted (λ i. binding_fingerprint (model_read model.now) index.now codes.now i) (b + 1) fingerprints.now }
    ensures { result ≡ again_bound (model_read model.now) index.now codes.now j b }
{
    if fingerprints[j as usize] != fingerprints[b as usize] {
        return false;
    }
    let earlier = model.binding_path(j);
    let path = model.binding_path(b);
    (model.binding_child(j) == model.binding_child(b))
        & (earlier.count == path.count)
        & !other_class(index, codes, earlier.first, path.first, path.count)
}

// Whether an earlier binding of the child has the same path (19d).
fn binding_again(
    model: &Model,
    index: &[u16; 1793],
    codes: &[u32],
    fingerprints: &[u64],
    b: u16,
) -> bool
    requires { Fingerprinted (λ i. binding_fingerprint (model_read model.now) index.now codes.now i) (b + 1) fingerprints.now }
    ensures { result ≡ binding_again (model_read model.now) index.now codes.now b }
{
    (0..b).any(|j| again_bound(model, index, codes, fingerprints, j, b))
}

// Whether a target path stands under an entity set (19e).
fn target_under_set(model: &Model, b: u16) -> bool
    ensures { result ≡ binding19e (model_read model.now) b }
{
    (model.binding_target_path(b).count != 0) & !model.child_singleton(model.binding_target(b))
}

// Whether the paths of binding b break rule 19 (all of it but 19d), by the codes of all segments.
fn binding_paths_fail(hierarchy: &Hierarchy, codes: &[u32], b: u16) -> bool
    ensures { result ≡ binding_paths_fail (model_read hierarchy.now.model) codes.now b }
{
    let model = &hierarchy.model;
    let path = model.binding_path(b);
    let path_run = run_of(codes, path.first, path.count);
    let path_end = end_of(
        model,
        &path_run,
        model.child_type(model.binding_child(b)),
        path.count,
    );
    let target = model.binding_target_path(b);
    let target_run = run_of(codes, target.first, target.count);
    let target_end = end_of(
        model,
        &target_run,
        model.child_type(model.binding_target(b)),
        target.count,
    );
    binding_codes(model, &path_run, path.count)
        | target_under_set(model, b)
        | target_codes(model, &target_run, target.count)
        | ends_apart(hierarchy, path_end, target_end)
}

// The first binding that breaks rule 19, by the codes of all segments and the index of the names.
pub fn first_19(hierarchy: &Hierarchy, index: &[u16; 1793], codes: &[u32]) -> Option<u16>
    ensures { result ≡ found (first_from (λ b. binding_coded (model_read hierarchy.now.model) index.now codes.now b) 0 ((model_read hierarchy.now.model).bindings)) }
{
    let model = &hierarchy.model;
    let mut fingerprints = [1u64; 128];
    for b in 0..model.binding_count() {
        fingerprints[b as usize] = binding_fingerprint(model, index, codes, b);
        if binding_paths_fail(hierarchy, codes, b)
            | binding_again(model, index, codes, &fingerprints, b)
        {
            return Some(b);
        }
    }
    None
}
