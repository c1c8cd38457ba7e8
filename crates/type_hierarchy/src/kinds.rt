// Kinds of a type reference: a type number, or 64 + primitive code.
ghost use Rattle.model_image.specs.Read.{model_read};
ghost use Rattle.std.specs.Prelude.{◌≡◌};
ghost use Rattle.csdl.specs.Find as find;

use csdl::TypeKind;
use model_image::model::Model;

// Whether x is a type of the kind.
pub fn of_kind(model: &Model, kind: u16, x: u16) -> bool
    ensures { result ≡ find.of_kind (model_read model.now) kind x }
{
    (x < model.type_count()) & (model.type_kind(x) == kind)
}

// Whether x is an entity or complex type.
pub fn structured(model: &Model, x: u16) -> bool
    ensures { result ≡ find.structured (model_read model.now) x }
{
    (x < model.type_count()) & (model.type_kind(x) <= TypeKind::Complex as u16)
}
