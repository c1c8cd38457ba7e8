// The tests that the rules put to the steps of a path, over its codes.
#![tactic(auto, unfolding(csdl::specs::Paths::key_code, csdl::specs::Paths::key_type, csdl::specs::Paths::key_step, csdl::specs::Paths::key_end, csdl::specs::Paths::constraint_step, csdl::specs::Paths::non_containment, csdl::specs::Paths::target_step))]

ghost use Rattle.model_image.specs.Read.{model_read};
ghost use Rattle.std.specs.Prelude.{◌≡◌, ◌<◌, ℕ, Bool};
ghost use Rattle.csdl.specs.Paths.{key_code, key_type, key_step, key_end, constraint_step, non_containment, target_step};
ghost use Rattle.path_resolution.specs.Resolution.{is_code, number_of};
ghost use Rattle.path_steps.specs.Steps.{Tests, any_code, step_or_end};

use csdl::TypeKind;
use model_image::model::Model;
use path_resolution::codes::{FIRST_CAST, last_code};
use type_hierarchy::kinds::of_kind;
use type_hierarchy::steps::{complex_step, contain_step};

// Whether a key may have the primitive type of the code.
fn key_code(c: u16) -> bool
    ensures { result ≡ key_code c }
{
    matches!(c, 2..=6 | 8..=13 | 16..=17)
}

// Whether a key may have the type.
fn key_type(model: &Model, x: u16) -> bool
    ensures { result ≡ key_type (model_read model.now) x }
{
    of_kind(model, TypeKind::Enumeration as u16, x)
        || (64 <= x && key_code(x - 64))
        || (of_kind(model, TypeKind::Definition as u16, x) && key_code(model.type_underlying(x)))
}

// Whether p may be a step of a key's path before the last.
pub fn key_step(model: &Model, p: u16) -> bool
    ensures { result ≡ key_step (model_read model.now) p }
{
    !model.property_collection(p) && !model.property_nullable(p) && complex_step(model, p)
}

// Whether p may be the last.
pub fn key_end(model: &Model, p: u16) -> bool
    ensures { result ≡ key_end (model_read model.now) p }
{
    !model.property_collection(p)
        && !model.property_nullable(p)
        && key_type(model, model.property_type_ref(p))
}

// Whether p may be a step of a constraint's path before the last.
pub fn constraint_step(model: &Model, p: u16) -> bool
    ensures { result ≡ constraint_step (model_read model.now) p }
{
    !model.property_collection(p) && complex_step(model, p)
}

// Whether p is a navigation property without containment.
pub fn non_containment(model: &Model, p: u16) -> bool
    ensures { result ≡ non_containment (model_read model.now) p }
{
    model.property_navigation(p) && !model.property_contains(p)
}

// Whether p may be a step of a target path before the last.
pub fn target_step(model: &Model, p: u16) -> bool
    ensures { result ≡ target_step (model_read model.now) p }
{
    !model.property_collection(p) && (complex_step(model, p) || contain_step(model, p))
}

// Whether the code is that of a property that passes the test.
pub fn code_test<F: Fn(u16) -> bool>(code: u32, test: F) -> bool
    requires { F.IsAlwaysCallable test }
    ensures { (t : ℕ → Bool) → Tests (F.post test) t → result ≡ is_code t code }
{
    code < FIRST_CAST && test(code as u16)
}

// The property of a code, 0 for a cast.
pub fn number_of(code: u32) -> u16
    ensures { result ≡ number_of code }
{
    if code < FIRST_CAST { code as u16 } else { 0 }
}

// Whether one of the first n codes is that of a property that passes the test.
pub fn any_code<F: Fn(u16) -> bool>(codes: &[u32; 16], n: u16, test: F) -> bool
    requires short { n < 16 }
    requires tests { F.IsAlwaysCallable test }
    ensures { (t : ℕ → Bool) → Tests (F.post test) t → result ≡ any_code t codes.now n }
{
    (0..n).any(|k| codes[k as usize] < FIRST_CAST && test(codes[k as usize] as u16))
}

// Whether of n codes one before the last passes the test of a step, or the last passes that of an end.
pub fn step_or_end<F: Fn(u16) -> bool, G: Fn(u16) -> bool>(
    codes: &[u32; 16],
    n: u16,
    step: F,
    end: G,
) -> bool
    requires short { n < 16 }
    requires steps { F.IsAlwaysCallable step }
    requires ends { G.IsAlwaysCallable end }
    ensures { (s e : ℕ → Bool) → Tests (F.post step) s → Tests (G.post end) e → result ≡ step_or_end s e codes.now n }
{
    any_code(codes, n.saturating_sub(1), step) || code_test(last_code(codes, n), end)
}
