// Rule 16: referential constraints.
ghost use Rattle.std.specs.Prelude.{◌≡◌, ◌<◌, cond, Some, None};
ghost use Rattle.csdl.specs.Search.{first_from, found};
ghost use Rattle.csdl.specs.Paths.{same_shape, both_complex, other_nullable};
ghost use Rattle.model_image.specs.Read.{model_read};
ghost use Rattle.path_resolution.specs.Resolution.{last_code, number_of};
ghost use Rattle.path_resolution.specs.Coded.{run_of};
ghost use Rattle.rules_keys.specs.Constraints.{constraint_ends, constraint_codes, constraint_coded};

use csdl::{Run, TypeKind};
use model_image::model::Model;
use path_resolution::codes::{has_cast, last_code, run_of};
use path_steps::{constraint_step, number_of, step_or_end};
use type_hierarchy::kinds::of_kind;

// Whether d and r have the same type and both or neither are collections.
fn same_shape(model: &Model, d: u16, r: u16) -> bool
    ensures { result ≡ same_shape (model_read model.now) d r }
{
    (model.property_type_ref(d) == model.property_type_ref(r))
        & (model.property_collection(d) == model.property_collection(r))
}

// Whether d and r are both single and complex.
#[tactic(auto, unfolding(csdl::specs::Paths::both_complex))]
fn both_complex(model: &Model, d: u16, r: u16) -> bool
    ensures { result ≡ both_complex (model_read model.now) d r }
{
    !model.property_collection(d)
        & !model.property_collection(r)
        & of_kind(model, TypeKind::Complex as u16, model.property_type_ref(d))
        & of_kind(model, TypeKind::Complex as u16, model.property_type_ref(r))
}

// Whether d is not nullable though p or r is, or is though neither is (16f).
fn other_nullable(model: &Model, p: u16, d: u16, r: u16) -> bool
    ensures { result ≡ other_nullable (model_read model.now) p d r }
{
    model.property_nullable(d) != (model.property_nullable(p) | model.property_nullable(r))
}

// Whether the property p, or the last properties d and r of the paths, break the rule (16a, 16e, 16f).
#[tactic(auto, unfolding(crate::specs::Constraints::constraint_ends, csdl::specs::Paths::other_shape))]
fn constraint_ends(model: &Model, p: u16, d: u16, r: u16) -> bool
    ensures { result ≡ constraint_ends (model_read model.now) p d r }
{
    !model.property_navigation(p)
        | model.property_collection(p)
        | !same_shape(model, d, r) & !both_complex(model, d, r)
        | other_nullable(model, p, d, r)
}

// Whether a path has a cast, a step that it may not have, or no last property (16b to 16d).
#[tactic(auto, unfolding(crate::specs::Constraints::constraint_codes))]
fn constraint_codes(model: &Model, codes: &[u32; 16], n: u16) -> bool
    requires { n < 16 }
    ensures { result ≡ constraint_codes (model_read model.now) codes.now n }
{
    has_cast(codes, n)
        | step_or_end(
            codes,
            n,
            |p| !constraint_step(model, p),
            |p| model.property_navigation(p),
        )
        | (last_code(codes, n) >= 32768)
}

// The last property of a constraint's path, by the codes of all segments; none where 16b to 16d refuse the path.
fn constraint_end(model: &Model, codes: &[u32], path: Run) -> Option<u16>
    requires { (path.first < 2048) × (path.count < 16) }
    ensures { result ≡ cond (constraint_codes (model_read model.now) (run_of codes.now path.first path.count) path.count) None (Some (number_of (last_code (run_of codes.now path.first path.count) path.count))) }
{
    let run = run_of(codes, path.first, path.count);
    if constraint_codes(model, &run, path.count) {
        return None;
    }
    Some(number_of(last_code(&run, path.count)))
}

// Whether constraint c breaks rule 16, by the codes of all segments.
fn constraint_16(model: &Model, codes: &[u32], c: u16) -> bool
    ensures { result ≡ constraint_coded (model_read model.now) codes.now c }
{
    let Some(d) = constraint_end(model, codes, model.constraint_dependent(c)) else {
        return true;
    };
    let Some(r) = constraint_end(model, codes, model.constraint_principal(c)) else {
        return true;
    };
    constraint_ends(model, model.constraint_property(c), d, r)
}

// The first constraint that breaks rule 16, by the codes of all segments.
pub fn first_16(model: &Model, codes: &[u32]) -> Option<u16>
    ensures { result ≡ found (first_from (λ c. constraint_coded (model_read model.now) codes.now c) 0 ((model_read model.now).constraints)) }
{
    (0..model.constraint_count()).find(|c| constraint_16(model, codes, *c))
}
