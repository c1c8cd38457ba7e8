// Rules 8 and 9, of a type.
ghost use Rattle.model_image.specs.Read.{model_read};
ghost use Rattle.std.specs.Prelude.{◌≡◌, ◌||◌};
ghost use Rattle.csdl.specs.Search.{first_from, found};
ghost use Rattle.csdl.specs.Types.{type8a, type8b, type8c, type8d, type8e, type8f, type8g, type8h, type8i, type8, type9};

use csdl::TypeKind;
use model_image::model::Model;
use type_hierarchy::bases::ancestor;

// 8a, 8b, 8c: the kind against the kind of the base, and against base and flags. The number of a kind may be one that no kind has.
fn kind_misfits(model: &Model, t: u16) -> bool
    ensures { result ≡ (type8a (model_read model.now) t || type8b (model_read model.now) t || type8c (model_read model.now) t) }
{
    let kind = model.type_kind(t);
    let media = model.type_media(t);
    let base = model.base_type(t);
    let differs = match base {
        Some(b) => model.type_kind(b) != kind,
        None => false,
    };
    differs
        | ((TypeKind::Enumeration as u16 <= kind)
            & (base.is_some() | model.type_abstract(t) | model.type_open(t) | media))
        | ((kind == TypeKind::Complex as u16) & media)
}

// 8d, 8e, 8f: the flags against those of the base.
fn base_misfits(model: &Model, t: u16) -> bool
    ensures { result ≡ (type8d (model_read model.now) t || type8e (model_read model.now) t || type8f (model_read model.now) t) }
{
    let Some(base) = model.base_type(t) else {
        return false;
    };
    let entity = model.type_kind(t) == TypeKind::Entity as u16;
    (entity & model.type_abstract(t) & !model.type_abstract(base))
        | (model.type_open(base) & !model.type_open(t))
        | (model.type_media(base) & !model.type_media(t))
}

// 8g, 8h, 8i: the underlying type.
fn underlying_misfits(model: &Model, t: u16) -> bool
    ensures { result ≡ (type8g (model_read model.now) t || type8h (model_read model.now) t || type8i (model_read model.now) t) }
{
    let kind = model.type_kind(t);
    let under = model.type_underlying(t);
    ((kind <= TypeKind::Complex as u16) & (under != 0))
        | ((kind == TypeKind::Enumeration as u16)
            & !((under == 3) | ((10 <= under) & (under <= 13))))
        | ((kind == TypeKind::Definition as u16) & (under == 0))
}

// Whether the type breaks rule 8.
#[tactic(auto, using(crate::proofs::Bools::or_threes), unfolding(csdl::specs::Types::type8))]
fn type_8(model: &Model, t: u16) -> bool
    ensures { result ≡ type8 (model_read model.now) t }
{
    kind_misfits(model, t) | base_misfits(model, t) | underlying_misfits(model, t)
}

// The first type that breaks rule 8.
pub fn first_8(model: &Model) -> Option<u16>
    ensures { result ≡ found (first_from (λ t. type8 (model_read model.now) t) 0 (model_read model.now).types) }
{
    (0..model.type_count()).find(|t| type_8(model, *t))
}

// Whether the type breaks rule 9: it is its own ancestor.
fn type_9(model: &Model, t: u16) -> bool
    ensures { result ≡ type9 (model_read model.now) t }
{
    ancestor(model, t, t)
}

// The first type that breaks rule 9.
pub fn first_9(model: &Model) -> Option<u16>
    ensures { result ≡ found (first_from (λ t. type9 (model_read model.now) t) 0 (model_read model.now).types) }
{
    (0..model.type_count()).find(|t| type_9(model, *t))
}
