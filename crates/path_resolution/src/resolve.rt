// Resolving the segments of a path in order.
ghost use Rattle.model_image.specs.Read.{model_read};
ghost use Rattle.std.specs.Prelude.{◌≡◌, cond, not, ◌&&◌, ◌<◌, ◌+◌, eqb};
ghost use Rattle.csdl.specs.Find as find;
ghost use Rattle.csdl.specs.Search.{if_found};
ghost use Rattle.csdl.specs.Path.{no_reference, segment_at, resolves_at, step_at, moves_to, end_of};
ghost use Rattle.csdl.specs.Path.Step.{property, nothing};
ghost use Rattle.csdl.specs.Verdict.{step_code};
ghost use Rattle.path_resolution.specs.Resolution.{ResolvedTo, prefix, codes_to, resolved_count};

use crate::codes::{FIRST_CAST, NO_REFERENCE, NOTHING};
use crate::wide::{ancestor_or_self, structured};
use lookup::model::Lookup;
use lookup::names::find;
use type_hierarchy::hierarchy::Hierarchy;

// One segment resolved: whether it does, its code, and the type reference that it moves to; for a name that means nothing, the code and
// the reference that say so.
#[derive(Clone, Copy)]
struct Move {
    ok: bool,
    code: u32,
    to: u32,
}

// A path and the type reference at which it starts: its first segment, and how many.
#[derive(Clone, Copy)]
pub struct PathFrom {
    pub start: u16,
    pub first: u16,
    pub count: u16,
}

// The codes of the segments (a property's number, or FIRST_CAST + type for a cast), how many segments resolve before the first that
// does not, and the type reference at the end.
#[derive(Clone, Copy)]
pub struct Resolved {
    pub codes: [u32; 16],
    pub taken: u16,
    pub end: u32,
}

// Whether a cast to c resolves at t.
fn cast_resolves(hierarchy: &Hierarchy, t: u32, c: u32) -> bool
    ensures { result ≡ (find.structured (model_read hierarchy.now.model) c && find.ancestor_or_self (model_read hierarchy.now.model) t c) }
{
    structured(&hierarchy.model, c) && ancestor_or_self(hierarchy, t, c)
}

// A name resolved at t.
fn named_move(lookup: &Lookup, t: u32, name: &[u8]) -> Move
    ensures ok_value { result.ok ≡ (find.structured (model_read lookup.now.hierarchy.model) t && not (eqb (find.find (model_read lookup.now.hierarchy.model) name.now t) 0)) }
    ensures code_value { result.code ≡ step_code (if_found nothing (λ p. property p) (find.find (model_read lookup.now.hierarchy.model) name.now t)) }
    ensures to_value { result.to ≡ if_found no_reference (λ p. (model_read lookup.now.hierarchy.model).type_ref p) (find.find (model_read lookup.now.hierarchy.model) name.now t) }
{
    match find(lookup, name, t) {
        None => Move {
            ok: false,
            code: NOTHING,
            to: NO_REFERENCE,
        },
        Some(p) => Move {
            ok: structured(&lookup.hierarchy.model, t),
            code: p as u32,
            to: lookup.hierarchy.model.property_type_ref(p) as u32,
        },
    }
}

// Segment g resolved at t.
#[tactic(auto, unfolding(csdl::specs::Path::segment_at, csdl::specs::Path::resolves_at, csdl::specs::Path::step_at, csdl::specs::Path::moves_to))]
fn move_at(lookup: &Lookup, t: u32, g: u16) -> Move
    ensures ok_value { result.ok ≡ resolves_at (model_read lookup.now.hierarchy.model) t (segment_at (model_read lookup.now.hierarchy.model) g) }
    ensures code_value { result.code ≡ step_code (step_at (model_read lookup.now.hierarchy.model) t (segment_at (model_read lookup.now.hierarchy.model) g)) }
    ensures to_value { result.to ≡ moves_to (model_read lookup.now.hierarchy.model) t (segment_at (model_read lookup.now.hierarchy.model) g) }
{
    let model = &lookup.hierarchy.model;
    if model.segment_cast(g) {
        let c = model.segment_type(g);
        return Move {
            ok: cast_resolves(&lookup.hierarchy, t, c),
            code: FIRST_CAST + c,
            to: c,
        };
    }
    named_move(lookup, t, model.segment_text(g))
}

// One segment more resolves only if all before it do.
fn taken_on(ok: bool, taken: u16, k: u16) -> u16
    requires { k < 16 }
    ensures { result ≡ cond (ok && eqb taken k) (k + 1) taken }
{
    if ok && taken == k { k + 1 } else { taken }
}

// The path resolved.
pub fn resolve_path(lookup: &Lookup, path: PathFrom) -> Resolved
    requires { (path.first < 2048) × (path.count < 16) }
    ensures resolved_to { ResolvedTo (model_read lookup.now.hierarchy.model) path.start path.first path.count result.codes result.taken result.end }
    ensures codes_value { (result.codes ≡ codes_to (model_read lookup.now.hierarchy.model) path.start path.first path.count) × (result.taken ≡ resolved_count (model_read lookup.now.hierarchy.model) path.start path.first path.count) × (result.end ≡ end_of (model_read lookup.now.hierarchy.model) path.start (prefix (model_read lookup.now.hierarchy.model) path.first path.count)) }
{
    let mut codes = [0u32; 16];
    let mut taken: u16 = 0;
    let mut t: u32 = path.start as u32;
    for k in 0..path.count {
        let moved = move_at(lookup, t, path.first + k);
        codes[k as usize] = moved.code;
        taken = taken_on(moved.ok, taken, k);
        t = moved.to;
    }
    Resolved {
        codes,
        taken,
        end: t,
    }
}
