// Steps along properties.
ghost use Rattle.model_image.specs.Read.{model_read};
ghost use Rattle.std.specs.Prelude.{◌≡◌};
ghost use Rattle.csdl.specs.Find as find;

use crate::kinds::of_kind;
use csdl::TypeKind;
use model_image::model::Model;

// Whether p is a structural property of a complex type.
pub fn complex_step(model: &Model, p: u16) -> bool
    ensures { result ≡ find.complex_step (model_read model.now) p }
{
    !model.property_navigation(p)
        & of_kind(model, TypeKind::Complex as u16, model.property_type_ref(p))
}

// Whether p is a navigation property that contains.
pub fn contain_step(model: &Model, p: u16) -> bool
    ensures { result ≡ find.contain_step (model_read model.now) p }
{
    model.property_navigation(p) & model.property_contains(p)
}

// Whether the items of p are integral.
pub fn integral(model: &Model, p: u16) -> bool
    ensures { result ≡ find.integral (model_read model.now) p }
{
    complex_step(model, p) | contain_step(model, p)
}
