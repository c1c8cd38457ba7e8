// Rule 11: a name declared again on the owner, or below an ancestor's property without right.
#![tactic(auto)]

ghost use Rattle.std.specs.Prelude.{◌≡◌, ℕ, Bool, ◌&&◌, ◌<◌};
ghost use Rattle.csdl.specs.Search.{first_from, found};
ghost use Rattle.csdl.specs.Find as find;
ghost use Rattle.csdl.specs.Properties as rules;
ghost use Rattle.csdl.specs.Properties.{same_name};
ghost use Rattle.model_image.specs.Read.{model_read};
ghost use Rattle.type_hierarchy.specs.Sets.{Members};
ghost use Rattle.rules_redeclaration.specs.Clashes.{clashing};

use lookup::model::Lookup;
use model_image::model::Model;
use type_hierarchy::bases::ancestor;
use type_hierarchy::type_sets::in_set;

// The first property that has the name of p and passes the test. A loop, since `successors` does not say that it ends.
fn first_alike_that<F: Fn(u16) -> bool>(lookup: &Lookup, p: u16, test: F) -> Option<u16>
    requires low { p < (model_read lookup.now.hierarchy.model).properties }
    requires callable { F.IsAlwaysCallable test }
    ensures { (passes : ℕ → Bool) → ((q : ℕ) (b : Bool) → F.post test q b → b ≡ passes q) → result ≡ found (first_from (λ q. passes q && same_name (model_read lookup.now.hierarchy.model) p q) 0 ((model_read lookup.now.hierarchy.model).properties)) }
{
    let mut at = lookup.first_alike(p);
    while let Some(q) = at {
        if test(q) {
            return Some(q);
        }
        at = lookup.next_alike(q);
    }
    None
}

// 11a: whether an earlier property of the owner has the name.
fn declared_before(lookup: &Lookup, p: u16) -> bool
    requires { p < (model_read lookup.now.hierarchy.model).properties }
    ensures { result ≡ rules.property11a (model_read lookup.now.hierarchy.model) p }
{
    let model = &lookup.hierarchy.model;
    let owner = model.property_owner(p);
    let first = first_alike_that(lookup, p, |q| (p <= q) | (model.property_owner(q) == owner));
    first.is_some_and(|q| q < p)
}

// Whether a is an ancestor of t; `ancestors` has those of t.
fn is_above(model: &Model, ancestors: u64, a: u16, t: u16) -> bool
    requires { Members 64 ancestors (λ u. find.ancestor (model_read model.now) u t) }
    ensures { result ≡ find.ancestor (model_read model.now) a t }
{
    if a < 64 {
        return in_set(ancestors, a);
    }
    ancestor(model, a, t)
}

// Whether p may redeclare q; `ancestors` has the ancestors of p's type.
fn redeclares(model: &Model, ancestors: u64, p: u16, q: u16) -> bool
    requires { Members 64 ancestors (λ u. find.ancestor (model_read model.now) u ((model_read model.now).type_ref p)) }
    ensures { result ≡ rules.redeclares (model_read model.now) p q }
{
    (model.property_navigation(p) == model.property_navigation(q))
        & is_above(
            model,
            ancestors,
            model.property_type_ref(q),
            model.property_type_ref(p),
        )
        & (model.property_collection(p) == model.property_collection(q))
        & (model.property_nullable(p) == model.property_nullable(q))
        & (model.property_contains(p) == model.property_contains(q))
}

// Whether q, which has p's name, is of a type of the set, and p may not redeclare it.
#[tactic(auto, unfolding(crate::specs::Clashes::clashing))]
fn clashes(model: &Model, above: u64, ancestors: u64, p: u16, q: u16) -> bool
    requires { Members 64 ancestors (λ u. find.ancestor (model_read model.now) u ((model_read model.now).type_ref p)) }
    ensures { result ≡ clashing (model_read model.now) above p q }
{
    in_set(above, model.property_owner(q)) && !redeclares(model, ancestors, p, q)
}

// 11b: whether a property of an ancestor has the name, and this one may not redeclare it.
fn wrongly_redeclared(lookup: &Lookup, p: u16) -> bool
    requires { p < (model_read lookup.now.hierarchy.model).properties }
    ensures { result ≡ rules.property11b (model_read lookup.now.hierarchy.model) p }
{
    let hierarchy = &lookup.hierarchy;
    let above = hierarchy.ancestors_at(hierarchy.model.property_owner(p));
    if above == 0 {
        return false;
    }
    let wider = hierarchy.ancestors_at(hierarchy.model.property_type_ref(p));
    first_alike_that(lookup, p, |q| clashes(&hierarchy.model, above, wider, p, q)).is_some()
}

// Whether the property breaks rule 11.
#[tactic(auto, unfolding(csdl::specs::Properties::property11))]
fn property_11(lookup: &Lookup, p: u16) -> bool
    requires { p < (model_read lookup.now.hierarchy.model).properties }
    ensures { result ≡ rules.property11 (model_read lookup.now.hierarchy.model) p }
{
    declared_before(lookup, p) || wrongly_redeclared(lookup, p)
}

// The first property that breaks rule 11.
pub fn first_11(lookup: &Lookup) -> Option<u16>
    ensures { result ≡ found (first_from (λ p. rules.property11 (model_read lookup.now.hierarchy.model) p) 0 ((model_read lookup.now.hierarchy.model).properties)) }
{
    (0..lookup.hierarchy.model.property_count()).find(|p| property_11(lookup, *p))
}
