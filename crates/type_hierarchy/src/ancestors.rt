// The ancestors of a type as a set, of one type or of all.
ghost use Rattle.model_image.specs.Read.{model_read};
ghost use Rattle.std.specs.Prelude.{◌≡◌, ◌||◌, ℕ, ◌≤◌, ◌<◌, get_or};
ghost use Rattle.csdl.specs.Climb.{climb};
ghost use Rattle.csdl.specs.Find.{ancestor};
ghost use Rattle.type_hierarchy.specs.Sets.{member, Members};
ghost use Rattle.type_hierarchy.specs.AncestorSets.{ancestors_of};

use crate::type_sets::with_one;
use model_image::model::Model;

// The base of each type; 0 for none, as in the table. Behind the last type, the table may have a part of one more record.
fn bases_of(model: &Model) -> [u16; 128]
    ensures { (t : ℕ) → get_or result t 0 ≡ (model_read model.now).base t }
{
    let mut bases = [0u16; 128];
    for t in 0..model.type_count() + 1 {
        bases[t as usize] = model.type_base(t);
    }
    bases
}

// The set, and the types above t, within `left` steps, by the bases of all types. The reference is to an array, and the climb comes last: it is
// compiled as a loop.
fn with_above(bases: &[u16; 128], set: u64, t: u16, left: u16) -> u64
    requires { (t < 128) × ((u : ℕ) → get_or bases.now u 0 ≤ 128) }
    ensures { Members 64 result (λ a. member set a || climb (λ u. get_or bases.now u 0) left a t) }
{
    if left == 0 {
        return set;
    }
    let base = bases[t as usize];
    if base == 0 {
        return set;
    }
    with_above(bases, with_one(set, base - 1), base - 1, left - 1)
}

// The ancestors of t; a number above 63 is no type's. It is asked of numbers past the last type alone, and stays out of its callers.
#[inline(never)]
pub(crate) fn ancestors_of(model: &Model, t: u16) -> u64
    ensures { (a : ℕ) → a < 64 → member result a ≡ ancestor (model_read model.now) a t }
{
    if t < 64 {
        let bases = bases_of(model);
        return with_above(&bases, 0, t, model.type_count());
    }
    0
}

// For each type its ancestors; 0 past the last type.
pub fn all_ancestors(model: &Model) -> [u64; 64]
    ensures { result ≡ ancestors_of model.now.types.now }
{
    let count = model.type_count();
    let bases = bases_of(model);
    let mut ancestors = [0u64; 64];
    for t in 0..count {
        ancestors[t as usize] = with_above(&bases, 0, t, count);
    }
    ancestors
}
