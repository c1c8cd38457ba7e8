// Rule 15: keys.
ghost use Rattle.std.specs.Prelude.{◌≡◌, ◌+◌, ◌≤◌};
ghost use Rattle.csdl.specs.Search.{first_from, found};
ghost use Rattle.csdl.specs.Paths.{key15b, key15f, key15h};
ghost use Rattle.model_image.specs.Read.{model_read};
ghost use Rattle.rules_names.specs.Digests.{Fingerprinted};
ghost use Rattle.type_hierarchy.specs.KeyOwners.{KeyOwners};
ghost use Rattle.rules_keys.specs.Keys.{coded_name, again_named, named_again, key_codes, key_fingerprint, owner_or_path_fails, alias_fails, key_coded};

use csdl::TypeKind;
use lookup::model::Lookup;
use lookup::names::find;
use model_image::model::Model;
use packed::same_bytes;
use path_resolution::codes::{code_at, has_cast, run_of};
use path_steps::{key_end, key_step, step_or_end};
use rules_names::digests::fingerprint_of;
use type_hierarchy::hierarchy::Hierarchy;
use type_hierarchy::key_owners::key_owners;
use type_hierarchy::kinds::of_kind;
use type_hierarchy::type_sets::meet;

// Whether an ancestor of the owner has keys (15b); `owners` has the owners of all keys.
fn key_above(hierarchy: &Hierarchy, owners: u64, k: u16) -> bool
    requires { KeyOwners hierarchy.now.model.keys.now owners }
    ensures { result ≡ key15b (model_read hierarchy.now.model) k }
{
    meet(owners, hierarchy.ancestors_at(hierarchy.model.key_owner(k)))
}

// Whether the path has a cast, or a step that it may not have (15c to 15e), by the codes of all segments.
fn key_codes(model: &Model, codes: &[u32], k: u16) -> bool
    ensures { result ≡ key_codes (model_read model.now) codes.now k }
{
    let path = model.key_path(k);
    let n = path.count;
    let run = run_of(codes, path.first, n);
    has_cast(&run, n) | step_or_end(&run, n, |p| !key_step(model, p), |p| !key_end(model, p))
}

// Whether an alias is there though the path has one segment, or is not though it has more (15f).
fn key_alias_form(model: &Model, k: u16) -> bool
    ensures { result ≡ key15f (model_read model.now) k }
{
    let count = model.key_path(k).count;
    (model.key_alias(k).size != 0) != (1 < count)
}

// The name of a key: its alias, else the name of the property that its path begins with; no bytes where that is a cast.
fn key_name<'a>(model: &Model<'a>, codes: &[u32], k: u16) -> &'a [u8]
    ensures { result.now ≡ coded_name (model_read model.now) codes.now k }
{
    if model.key_alias(k).size != 0 {
        return model.key_alias_text(k);
    }
    let path = model.key_path(k);
    let code = code_at(codes, path.first);
    if (path.count == 0) | (code >= 32768) {
        return &[];
    }
    model.property_text(code as u16)
}

// The fingerprint of key k.
#[tactic(auto, unfolding(crate::specs::Keys::key_fingerprint))]
fn key_fingerprint(model: &Model, codes: &[u32], k: u16) -> u64
    ensures { result ≡ key_fingerprint (model_read model.now) codes.now k }
{
    fingerprint_of(model.key_owner(k), key_name(model, codes, k))
}

// Whether keys j and k have the same owner and name; asked of their fingerprints first.
fn again_named(model: &Model, codes: &[u32], fingerprints: &[u64], j: u16, k: u16) -> bool
    requires { (j ≤ k) × Fingerprinted (λ i. key_fingerprint (model_read model.now) codes.now i) (k + 1) fingerprints.now }
    ensures { result ≡ again_named (model_read model.now) codes.now j k }
{
    if fingerprints[j as usize] != fingerprints[k as usize] {
        return false;
    }
    (model.key_owner(j) == model.key_owner(k))
        & same_bytes(key_name(model, codes, j), key_name(model, codes, k))
}

// Whether an earlier key of the owner has the name (15g).
fn key_named(model: &Model, codes: &[u32], fingerprints: &[u64], k: u16) -> bool
    requires { Fingerprinted (λ i. key_fingerprint (model_read model.now) codes.now i) (k + 1) fingerprints.now }
    ensures { result ≡ named_again (model_read model.now) codes.now k }
{
    (0..k).any(|j| again_named(model, codes, fingerprints, j, k))
}

// Whether the alias is the name of a property of the owner or an ancestor (15h).
fn key_alias_found(lookup: &Lookup, k: u16) -> bool
    ensures { result ≡ key15h (model_read lookup.now.hierarchy.model) k }
{
    let model = &lookup.hierarchy.model;
    model.key_alias(k).size != 0
        && find(
            lookup,
            model.key_alias_text(k),
            u32::from(model.key_owner(k)),
        )
        .is_some()
}

// Whether key k breaks rule 15 by its owner or its path (15a to 15e), by the codes of all segments.
#[tactic(auto, unfolding(crate::specs::Keys::owner_or_path_fails))]
fn owner_or_path_fails(hierarchy: &Hierarchy, owners: u64, codes: &[u32], k: u16) -> bool
    requires { KeyOwners hierarchy.now.model.keys.now owners }
    ensures { result ≡ owner_or_path_fails (model_read hierarchy.now.model) codes.now k }
{
    let model = &hierarchy.model;
    !of_kind(model, TypeKind::Entity as u16, model.key_owner(k))
        | key_above(hierarchy, owners, k)
        | key_codes(model, codes, k)
}

// Whether key k breaks rule 15 by its alias (15f, 15h).
#[tactic(auto, unfolding(crate::specs::Keys::alias_fails))]
fn alias_fails(lookup: &Lookup, k: u16) -> bool
    ensures { result ≡ alias_fails (model_read lookup.now.hierarchy.model) k }
{
    key_alias_form(&lookup.hierarchy.model, k) | key_alias_found(lookup, k)
}

// The first key that breaks rule 15, by the codes of all segments.
pub fn first_15(lookup: &Lookup, codes: &[u32]) -> Option<u16>
    ensures { result ≡ found (first_from (λ k. key_coded (model_read lookup.now.hierarchy.model) codes.now k) 0 ((model_read lookup.now.hierarchy.model).keys)) }
{
    let model = &lookup.hierarchy.model;
    let owners = key_owners(model);
    let mut fingerprints = [1u64; 128];
    for k in 0..model.key_count() {
        fingerprints[k as usize] = key_fingerprint(model, codes, k);
        if owner_or_path_fails(&lookup.hierarchy, owners, codes, k)
            | key_named(model, codes, &fingerprints, k)
            | alias_fails(lookup, k)
        {
            return Some(k);
        }
    }
    None
}
