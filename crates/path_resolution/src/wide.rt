// The lookups of a type reference that may be a cast's number: past every table nothing is found.
ghost use Rattle.model_image.specs.Read.{model_read};
ghost use Rattle.std.specs.Prelude.{◌≡◌};
ghost use Rattle.csdl.specs.Find as find;

use model_image::model::Model;
use type_hierarchy::hierarchy::Hierarchy;

// Whether x is an entity or complex type.
#[tactic(auto, using(type_hierarchy::proofs::Past::structured_past))]
pub fn structured(model: &Model, x: u32) -> bool
    ensures { result ≡ find.structured (model_read model.now) x }
{
    if x >= 64 {
        return false;
    }
    type_hierarchy::kinds::structured(model, x as u16)
}

// Whether t is a or derives from it.
pub fn ancestor_or_self(hierarchy: &Hierarchy, a: u32, t: u32) -> bool
    ensures { result ≡ find.ancestor_or_self (model_read hierarchy.now.model) a t }
{
    if t == a {
        return true;
    }
    if t >= 64 {
        return false;
    }
    if a >= 128 {
        return false;
    }
    hierarchy.ancestor_or_self(a as u16, t as u16)
}
