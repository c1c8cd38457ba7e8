// What a name means at a type: the property that the type or its nearest ancestor declares under it.
ghost use Rattle.model_image.specs.Read.{model_read};
ghost use Rattle.std.specs.Prelude.{◌≡◌, ◌&&◌, ◌%◌, ◌<◌, IfSome, Some, eqb, ltb, length};
ghost use Rattle.csdl.specs.Search.{found};
ghost use Rattle.csdl.specs.Find as find;
ghost use Rattle.lookup.specs.Index.{named_from};

use crate::buckets::bucket_of;
use crate::model::Lookup;
use model_image::model::Model;
use name_classes::first_properties::{first_of, has_name};
use type_hierarchy::nearness::nearness_of;

// The first property that has the name.
fn first_named(lookup: &Lookup, name: &[u8]) -> Option<u16>
    ensures value { result ≡ found (named_from lookup.now.hierarchy.model.properties.now lookup.now.hierarchy.model.names.now name.now 0) }
    ensures bound { IfSome result (λ p. p < 512) }
{
    let model = &lookup.hierarchy.model;
    if let Some(guess) = lookup.index[1537 + (bucket_of(name) as usize)].checked_sub(1) {
        if guess < model.property_count() && has_name(model, guess, name) {
            return lookup.first_alike(guess);
        }
    }
    first_of(model, &lookup.index, name)
}

// What a name that may have several properties means at t: of these the one whose owner the climb from t meets first, with most types left. How
// near each type is to t is found once. `first` is the first property of the name.
fn find_among(lookup: &Lookup, name: &[u8], t: u16, first: u16) -> Option<u16>
    requires { (t < 128) × (Some first ≡ found (named_from lookup.now.hierarchy.model.properties.now lookup.now.hierarchy.model.names.now name.now 0)) }
    ensures value { result ≡ found (find.find (model_read lookup.now.hierarchy.model) name.now t) }
    ensures bound { IfSome result (λ p. p < 512) }
{
    let model = &lookup.hierarchy.model;
    let nearness = nearness_of(model, t);
    let mut nearest: Option<u16> = None;
    let mut near: u16 = 0;
    let mut at = Some(first);
    while let Some(p) = at {
        let left = nearness[model.property_owner(p) as usize];
        if near < left {
            near = left;
            nearest = Some(p);
        }
        at = lookup.next_alike(p);
    }
    nearest
}

// Whether a and t are types of a table with no part of a record at its end.
fn both_types(model: &Model, a: u16, t: u16) -> bool
    ensures { result ≡ (ltb a ((model_read model.now).types) && ltb t ((model_read model.now).types) && eqb (length model.now.types.now % 6) 0) }
{
    let n = model.type_count();
    (a < n) & (t < n) & (model.types.len() % 6 == 0)
}

// What the name means at t. A name that one property has is asked for by one bit of the ancestors, where its owner and t are types. t may be a
// cast's number: past every table nothing is found.
pub fn find(lookup: &Lookup, name: &[u8], t: u32) -> Option<u16>
    ensures value { result ≡ found (find.find (model_read lookup.now.hierarchy.model) name.now t) }
    ensures bound { IfSome result (λ p. p < 512) }
{
    if t >= 64 {
        return None;
    }
    let u = t as u16;
    let first = first_named(lookup, name)?;
    let owner = lookup.hierarchy.model.property_owner(first);
    if lookup.next_alike(first).is_none() && both_types(&lookup.hierarchy.model, owner, u) {
        return lookup.hierarchy.ancestor_or_self(owner, u).then_some(first);
    }
    find_among(lookup, name, u, first)
}
