// The forms of the two paths of a binding.
ghost use Rattle.std.specs.Prelude.{◌≡◌, ◌<◌};
ghost use Rattle.model_image.specs.Read.{model_read};
ghost use Rattle.rules_bindings.specs.Bindings.{binding_codes, target_codes, ends_apart};

use model_image::model::Model;
use path_resolution::codes::{has_cast, last_name};
use path_resolution::wide::ancestor_or_self;
use path_steps::{any_code, code_test, non_containment, step_or_end, target_step};
use type_hierarchy::hierarchy::Hierarchy;
use type_hierarchy::steps::contain_step;

// Whether the path has no name, its last name is no navigation property without containment, or an earlier name is one (19a to 19c).
pub(crate) fn binding_codes(model: &Model, codes: &[u32; 16], n: u16) -> bool
    requires { n < 16 }
    ensures { result ≡ binding_codes (model_read model.now) codes.now n }
{
    let Some(last) = last_name(codes, n) else {
        return true;
    };
    !code_test(codes[last as usize], |p| non_containment(model, p))
        | any_code(codes, last, |p| non_containment(model, p))
}

// Whether a target path has a cast, or a step that it may not have (19f, 19g).
pub(crate) fn target_codes(model: &Model, codes: &[u32; 16], n: u16) -> bool
    requires { n < 16 }
    ensures { result ≡ target_codes (model_read model.now) codes.now n }
{
    has_cast(codes, n)
        | step_or_end(
            codes,
            n,
            |p| !target_step(model, p),
            |p| !contain_step(model, p),
        )
}

// Whether neither of two types is at the other (19h).
#[tactic(auto, unfolding(crate::specs::Bindings::ends_apart))]
pub(crate) fn ends_apart(hierarchy: &Hierarchy, a: u32, b: u32) -> bool
    ensures { result ≡ ends_apart (model_read hierarchy.now.model) a b }
{
    !ancestor_or_self(hierarchy, a, b) & !ancestor_or_self(hierarchy, b, a)
}
