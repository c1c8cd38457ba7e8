// Rule 18: keys for collections, and the children of the entity container.
ghost use Rattle.std.specs.Prelude.{◌≡◌};
ghost use Rattle.csdl.specs.Search.{first_from, found};
ghost use Rattle.csdl.specs.Find.{has_key};
ghost use Rattle.csdl.specs.Paths.{property18a, child18};
ghost use Rattle.model_image.specs.Read.{model_read};
ghost use Rattle.type_hierarchy.specs.KeyOwners.{KeyOwners};

use csdl::TypeKind;
use type_hierarchy::hierarchy::Hierarchy;
use type_hierarchy::key_owners::key_owners;
use type_hierarchy::kinds::of_kind;
use type_hierarchy::type_sets::meet;

// Whether t or one of its ancestors has a key; `owners` has the owners of all keys.
fn has_key(hierarchy: &Hierarchy, owners: u64, t: u16) -> bool
    requires { KeyOwners hierarchy.now.model.keys.now owners }
    ensures { result ≡ has_key (model_read hierarchy.now.model) t }
{
    meet(owners, hierarchy.with_ancestors(t))
}

// Whether p is a contained collection of a type that has no key (18a).
#[tactic(auto, unfolding(csdl::specs::Paths::property18a))]
fn property_18(hierarchy: &Hierarchy, owners: u64, p: u16) -> bool
    requires { KeyOwners hierarchy.now.model.keys.now owners }
    ensures { result ≡ property18a (model_read hierarchy.now.model) p }
{
    let model = &hierarchy.model;
    (model.property_navigation(p) & model.property_contains(p) & model.property_collection(p))
        && !has_key(hierarchy, owners, model.property_type_ref(p))
}

// Whether child h breaks rule 18 (18b to 18d).
#[tactic(auto, unfolding(csdl::specs::Paths::child18))]
fn child_18(hierarchy: &Hierarchy, owners: u64, h: u16) -> bool
    requires { KeyOwners hierarchy.now.model.keys.now owners }
    ensures { result ≡ child18 (model_read hierarchy.now.model) h }
{
    let model = &hierarchy.model;
    let t = model.child_type(h);
    let set = !model.child_singleton(h);
    set & !has_key(hierarchy, owners, t)
        | !of_kind(model, TypeKind::Entity as u16, t)
        | set & model.child_nullable(h)
}

// The first property that breaks rule 18.
pub fn first_property_18(hierarchy: &Hierarchy) -> Option<u16>
    ensures { result ≡ found (first_from (λ p. property18a (model_read hierarchy.now.model) p) 0 ((model_read hierarchy.now.model).properties)) }
{
    let owners = key_owners(&hierarchy.model);
    (0..hierarchy.model.property_count()).find(|p| property_18(hierarchy, owners, *p))
}

// The first child that breaks rule 18.
pub fn first_child_18(hierarchy: &Hierarchy) -> Option<u16>
    ensures { result ≡ found (first_from (λ h. child18 (model_read hierarchy.now.model) h) 0 ((model_read hierarchy.now.model).children)) }
{
    let owners = key_owners(&hierarchy.model);
    (0..hierarchy.model.child_count()).find(|h| child_18(hierarchy, owners, *h))
}
