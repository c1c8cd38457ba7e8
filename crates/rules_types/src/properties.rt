// Rule 10, of a property.
ghost use Rattle.model_image.specs.Read.{model_read};
ghost use Rattle.std.specs.Prelude.{◌≡◌, ◌||◌};
ghost use Rattle.csdl.specs.Search.{first_from, found};
ghost use Rattle.csdl.specs.Properties as rules;

use csdl::TypeKind;
use model_image::model::Model;
use type_hierarchy::kinds::{of_kind, structured};

// Whether x is Stream, or a type definition of it.
fn is_stream(model: &Model, x: u16) -> bool
    ensures { result ≡ rules.is_stream (model_read model.now) x }
{
    (x == 79) | (of_kind(model, TypeKind::Definition as u16, x) & (model.type_underlying(x) == 15))
}

// 10a to 10d: owner and type, and containment.
fn kinds_misfit(model: &Model, p: u16) -> bool
    ensures { result ≡ (rules.property10a (model_read model.now) p || rules.property10b (model_read model.now) p || rules.property10c (model_read model.now) p || rules.property10d (model_read model.now) p) }
{
    let owned = structured(model, model.property_owner(p));
    let navigation = model.property_navigation(p);
    let entity = of_kind(model, TypeKind::Entity as u16, model.property_type_ref(p));
    !owned
        | (navigation & !entity)
        | (!navigation & entity)
        | (!navigation & model.property_contains(p))
}

// 10e to 10h: partner, collections.
fn flags_misfit(model: &Model, p: u16) -> bool
    ensures { result ≡ (rules.property10e (model_read model.now) p || rules.property10f (model_read model.now) p || rules.property10g (model_read model.now) p || rules.property10h (model_read model.now) p) }
{
    let navigation = model.property_navigation(p);
    let collection = model.property_collection(p);
    let paired = model.property_partner(p).count != 0;
    (!navigation & paired)
        | (navigation & collection & model.property_nullable(p))
        | (collection & is_stream(model, model.property_type_ref(p)))
        | (paired & of_kind(model, TypeKind::Complex as u16, model.property_owner(p)))
}

// Whether the property breaks rule 10.
#[tactic(auto, using(crate::proofs::Bools::or_fours), unfolding(csdl::specs::Properties::property10))]
fn property_10(model: &Model, p: u16) -> bool
    ensures { result ≡ rules.property10 (model_read model.now) p }
{
    kinds_misfit(model, p) | flags_misfit(model, p)
}

// The first property that breaks rule 10.
pub fn first_10(model: &Model) -> Option<u16>
    ensures { result ≡ found (first_from (λ p. rules.property10 (model_read model.now) p) 0 (model_read model.now).properties) }
{
    (0..model.property_count()).find(|p| property_10(model, *p))
}
