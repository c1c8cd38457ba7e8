// Rule 7: types of one schema and children do not repeat a name. Each has its own functions: the contract of a generic one, which has to say what its
// closures answer, would be longer than the two bodies.
ghost use Rattle.std.specs.Prelude.{◌≡◌, ◌+◌, ◌≤◌};
ghost use Rattle.csdl.specs.Form as rules;
ghost use Rattle.csdl.specs.Search.{first_from, found};
ghost use Rattle.model_image.specs.Read.{model_read};
ghost use Rattle.rules_names.specs.Digests.{type_fingerprint, child_fingerprint, Fingerprinted};
ghost use Rattle.rules_names.specs.Repeats.{same_child};

use crate::digests::fingerprint_of;
use model_image::model::Model;
use packed::same_bytes;

// The fingerprint of type t, and of child h.
#[tactic(auto, unfolding(crate::specs::Digests::type_fingerprint))]
fn type_fingerprint(model: &Model, t: u16) -> u64
    ensures { result ≡ type_fingerprint (model_read model.now) t }
{
    fingerprint_of(model.type_schema(t), model.type_text(t))
}

#[tactic(auto, unfolding(crate::specs::Digests::child_fingerprint))]
fn child_fingerprint(model: &Model, h: u16) -> u64
    ensures { result ≡ child_fingerprint (model_read model.now) h }
{
    fingerprint_of(0, model.child_text(h))
}

// Whether type u has the schema and the name of type t; asked of their fingerprints first.
#[tactic(auto, unfolding(csdl::specs::Form::same_type))]
fn same_type(model: &Model, fingerprints: &[u64], t: u16, u: u16) -> bool
    requires { (u ≤ t) × Fingerprinted (λ v. type_fingerprint (model_read model.now) v) (t + 1) fingerprints.now }
    ensures { result ≡ rules.same_type (model_read model.now) t u }
{
    fingerprints[u as usize] == fingerprints[t as usize]
        && ((model.type_schema(u) == model.type_schema(t))
            & same_bytes(model.type_text(u), model.type_text(t)))
}

// 7a: the type has the name of an earlier type of its schema.
fn type_7(model: &Model, fingerprints: &[u64], t: u16) -> bool
    requires { Fingerprinted (λ v. type_fingerprint (model_read model.now) v) (t + 1) fingerprints.now }
    ensures { result ≡ rules.type7a (model_read model.now) t }
{
    (0..t).any(|u| same_type(model, fingerprints, t, u))
}

// Whether child j has the name of child h; asked of their fingerprints first.
fn same_child(model: &Model, fingerprints: &[u64], h: u16, j: u16) -> bool
    requires { (j ≤ h) × Fingerprinted (λ v. child_fingerprint (model_read model.now) v) (h + 1) fingerprints.now }
    ensures { result ≡ same_child (model_read model.now) h j }
{
    fingerprints[j as usize] == fingerprints[h as usize]
        && same_bytes(model.child_text(j), model.child_text(h))
}

// 7b: the child has the name of an earlier child.
fn child_7(model: &Model, fingerprints: &[u64], h: u16) -> bool
    requires { Fingerprinted (λ v. child_fingerprint (model_read model.now) v) (h + 1) fingerprints.now }
    ensures { result ≡ rules.child7b (model_read model.now) h }
{
    (0..h).any(|j| same_child(model, fingerprints, h, j))
}

// The first type that breaks rule 7.
pub fn first_type_7(model: &Model) -> Option<u16>
    ensures { result ≡ found (first_from (λ t. rules.type7a (model_read model.now) t) 0 ((model_read model.now).types)) }
{
    let mut fingerprints = [1u64; 64];
    for t in 0..model.type_count() {
        fingerprints[t as usize] = type_fingerprint(model, t);
        if type_7(model, &fingerprints, t) {
            return Some(t);
        }
    }
    None
}

// The first child that breaks rule 7.
pub fn first_child_7(model: &Model) -> Option<u16>
    ensures { result ≡ found (first_from (λ h. rules.child7b (model_read model.now) h) 0 ((model_read model.now).children)) }
{
    let mut fingerprints = [1u64; 64];
    for h in 0..model.child_count() {
        fingerprints[h as usize] = child_fingerprint(model, h);
        if child_7(model, &fingerprints, h) {
            return Some(h);
        }
    }
    None
}
