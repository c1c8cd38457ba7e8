// The types above a type: its base, that base's base, and so on.
ghost use Rattle.model_image.specs.Read.{model_read};
ghost use Rattle.std.specs.Prelude.{◌≡◌};
ghost use Rattle.csdl.specs.Climb as climb;
ghost use Rattle.csdl.specs.Find as find;

use model_image::model::Model;

// Whether a stands above t, within `left` steps.
#[tactic(auto, using(crate::proofs::Climb::climb_out, crate::proofs::Climb::climb_end, crate::proofs::Climb::climb_met, crate::proofs::Climb::climb_on))]
fn above(model: &Model, a: u16, t: u16, left: u16) -> bool
    ensures { result ≡ climb.climb (λ u. (model_read model.now).base u) left a t }
{
    if left == 0 {
        return false;
    }
    let Some(base) = model.base_type(t) else {
        return false;
    };
    if base == a {
        return true;
    }
    above(model, a, base, left - 1)
}

// Whether a is an ancestor of t.
pub fn ancestor(model: &Model, a: u16, t: u16) -> bool
    ensures { result ≡ find.ancestor (model_read model.now) a t }
{
    above(model, a, t, model.type_count())
}

// Whether t is a or derives from it.
pub fn ancestor_or_self(model: &Model, a: u16, t: u16) -> bool
    ensures { result ≡ find.ancestor_or_self (model_read model.now) a t }
{
    t == a || ancestor(model, a, t)
}

// The topmost type above t, or t itself, within `left` steps.
#[tactic(auto, using(crate::proofs::Climb::top_out, crate::proofs::Climb::top_end, crate::proofs::Climb::top_on))]
fn topmost(model: &Model, t: u16, left: u16) -> u16
    ensures { result ≡ climb.topmost (λ u. (model_read model.now).base u) left t }
{
    if left == 0 {
        return t;
    }
    match model.base_type(t) {
        Some(base) => topmost(model, base, left - 1),
        None => t,
    }
}

// The topmost type above t, or t itself.
pub fn top(model: &Model, t: u16) -> u16
    ensures { result ≡ find.top (model_read model.now) t }
{
    topmost(model, t, model.type_count())
}
