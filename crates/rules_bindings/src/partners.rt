// Rule 17: partners.
ghost use Rattle.std.specs.Prelude.{◌≡◌, not, ◌&&◌, ◌<◌, eqb};
ghost use Rattle.csdl.specs.Search.{first_from, found};
ghost use Rattle.csdl.specs.Model.{present};
ghost use Rattle.csdl.specs.Find.{ancestor_or_self};
ghost use Rattle.model_image.specs.Read.{model_read};
ghost use Rattle.type_hierarchy.specs.Sets.{Members};
ghost use Rattle.rules_bindings.specs.Partners.{partner_last, partner_codes, other_partner, contained_partner, other_contains, shared_containment, partner_ends, partner_coded};

use model_image::model::Model;
use path_resolution::codes::{last_code, run_of};
use path_steps::{any_code, code_test, number_of};
use type_hierarchy::bases::top;
use type_hierarchy::hierarchy::Hierarchy;
use type_hierarchy::type_sets::in_set;

// The code of the last step of the partner path of p; that of nothing where it has none.
#[tactic(auto, unfolding(csdl::specs::Path::path_of, crate::specs::Partners::partner_last))]
fn partner_code(model: &Model, codes: &[u32], p: u16) -> u32
    ensures { result ≡ partner_last (model_read model.now) codes.now p }
{
    let path = model.property_partner(p);
    let run = run_of(codes, path.first, path.count);
    last_code(&run, path.count)
}

// Whether the partner path ends in no navigation property, or goes through one (17a, 17b).
#[tactic(auto, unfolding(crate::specs::Partners::partner_codes))]
fn partner_codes(model: &Model, codes: &[u32; 16], n: u16) -> bool
    requires { n < 16 }
    ensures { result ≡ partner_codes (model_read model.now) codes.now n }
{
    !code_test(last_code(codes, n), |p| model.property_navigation(p))
        | any_code(codes, n.saturating_sub(1), |p| model.property_navigation(p))
}

// Whether q has a partner other than p (17d).
#[tactic(auto, unfolding(crate::specs::Partners::other_partner))]
fn other_partner(model: &Model, codes: &[u32], p: u16, q: u16) -> bool
    ensures { result ≡ other_partner (model_read model.now) codes.now p q }
{
    if model.property_partner(q).count == 0 {
        return false;
    }
    let code = partner_code(model, codes, q);
    !((code < 32768) & (code == u32::from(p)))
}

// Whether p contains, and q is not nullable within one hierarchy or nullable across two (17e).
fn contained_partner(model: &Model, p: u16, q: u16) -> bool
    ensures { result ≡ contained_partner (model_read model.now) p q }
{
    if !model.property_contains(p) {
        return false;
    }
    let within = top(model, model.property_owner(p)) == top(model, model.property_type_ref(p));
    model.property_nullable(q) != within
}

// Whether q is another property than p, and has a partner.
fn other_with_partner(model: &Model, p: u16, q: u16) -> bool
    ensures { result ≡ (not (eqb q p) && present ((model_read model.now).partner q)) }
{
    (q != p) & (model.property_partner(q).count != 0)
}

// Whether q is another property of p's owner or an ancestor whose partner contains; `owners` has p's owner and its ancestors.
fn other_contained(model: &Model, codes: &[u32], owners: u64, p: u16, q: u16) -> bool
    requires { Members 64 owners (λ a. ancestor_or_self (model_read model.now) a ((model_read model.now).owner p)) }
    ensures { result ≡ other_contains (model_read model.now) codes.now p q }
{
    if !other_with_partner(model, p, q) {
        return false;
    }
    if !in_set(owners, model.property_owner(q)) {
        return false;
    }
    let code = partner_code(model, codes, q);
    if code >= 32768 {
        return false;
    }
    model.property_contains(code as u16)
}

// Whether q contains, as does the partner of another property of p's owner or an ancestor (17f).
fn shared_containment(hierarchy: &Hierarchy, codes: &[u32], p: u16, q: u16) -> bool
    ensures { result ≡ shared_containment (model_read hierarchy.now.model) codes.now p q }
{
    let model = &hierarchy.model;
    if !model.property_contains(q) {
        return false;
    }
    let owners = hierarchy.with_ancestors(model.property_owner(p));
    (0..model.property_count()).any(|x| other_contained(model, codes, owners, p, x))
}

// Whether p and the property q that its partner path leads to break rule 17 (17c to 17f).
#[tactic(auto, unfolding(crate::specs::Partners::partner_ends))]
fn partner_ends(hierarchy: &Hierarchy, codes: &[u32], p: u16, q: u16) -> bool
    ensures { result ≡ partner_ends (model_read hierarchy.now.model) codes.now p q }
{
    let model = &hierarchy.model;
    !hierarchy.ancestor_or_self(model.property_type_ref(q), model.property_owner(p))
        | other_partner(model, codes, p, q)
        | contained_partner(model, p, q)
        | shared_containment(hierarchy, codes, p, q)
}

// Whether property p breaks rule 17, by the codes of all segments.
fn property_17(hierarchy: &Hierarchy, codes: &[u32], p: u16) -> bool
    ensures { result ≡ partner_coded (model_read hierarchy.now.model) codes.now p }
{
    let path = hierarchy.model.property_partner(p);
    if path.count == 0 {
        return false;
    }
    let run = run_of(codes, path.first, path.count);
    let q = number_of(last_code(&run, path.count));
    partner_codes(&hierarchy.model, &run, path.count) | partner_ends(hierarchy, codes, p, q)
}

// The first property that breaks rule 17, by the codes of all segments.
pub fn first_17(hierarchy: &Hierarchy, codes: &[u32]) -> Option<u16>
    ensures { result ≡ found (first_from (λ p. partner_coded (model_read hierarchy.now.model) codes.now p) 0 ((model_read hierarchy.now.model).properties)) }
{
    (0..hierarchy.model.property_count()).find(|p| property_17(hierarchy, codes, *p))
}
