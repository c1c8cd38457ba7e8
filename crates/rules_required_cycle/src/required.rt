// Rule 12: the types that reach themselves by required steps. The properties are read once: each required one gives its step to its owner. Then each
// type gets the steps of its ancestors too.
ghost use Rattle.model_image.specs.Read.{model_read};
ghost use Rattle.std.specs.Prelude.{◌≡◌, ◌&&◌, ◌||◌, ℕ, ◌<◌, eqb, get_or};
ghost use Rattle.csdl.specs.Search.{any_from, first_from, found};
ghost use Rattle.csdl.specs.Properties as rules;
ghost use Rattle.type_hierarchy.specs.Sets.{member, Members, step_of};
ghost use Rattle.rules_required_cycle.specs.Steps.{Owned};

use crate::cycles::{close_rows, with_row};
use model_image::model::Model;
use type_hierarchy::hierarchy::Hierarchy;
use type_hierarchy::steps::integral;
use type_hierarchy::type_sets::{in_set, with_one};

// Whether the property gives steps.
fn required(model: &Model, p: u16) -> bool
    ensures { result ≡ rules.required (model_read model.now) p }
{
    !model.property_collection(p) & !model.property_nullable(p) & integral(model, p)
}

// The row of the owner of p, and the step that p gives, where it gives one.
fn with_step(model: &Model, row: u64, p: u16) -> u64
    ensures { Members 64 result (λ u. member row u || (rules.required (model_read model.now) p && eqb ((model_read model.now).type_ref p) u)) }
{
    if required(model, p) {
        return with_one(row, model.property_type_ref(p));
    }
    row
}

// The steps that each type has by its own properties, row by row.
fn own_rows(model: &Model) -> [u64; 64]
    ensures { Owned (model_read model.now) (model_read model.now).properties result }
{
    let mut rows = [0u64; 64];
    for p in 0..model.property_count() {
        let owner = model.property_owner(p) as usize;
        rows[owner] = with_step(model, rows[owner], p);
    }
    rows
}

// The rows of the numbers of the set, as one.
fn rows_of(rows: &[u64; 64], set: u64) -> u64
    ensures { Members 64 result (λ u. any_from (λ a. member set a && step_of rows.now a u) 0 64) }
{
    let mut row: u64 = 0;
    for a in 0..64 {
        row = with_row(rows, set, row, a);
    }
    row
}

// The steps of all types, row by row: those of t and of its ancestors.
fn step_rows(hierarchy: &Hierarchy) -> [u64; 64]
    ensures { (t : ℕ) → t < (model_read hierarchy.now.model).types → Members 64 (get_or result t 0) (λ u. rules.required_step (model_read hierarchy.now.model) t u) }
{
    let own = own_rows(&hierarchy.model);
    let mut rows = [0u64; 64];
    for t in 0..hierarchy.model.type_count() {
        rows[t as usize] = rows_of(&own, hierarchy.with_ancestors(t));
    }
    rows
}

// The first type that breaks rule 12.
pub fn first_12(hierarchy: &Hierarchy) -> Option<u16>
    ensures { result ≡ found (first_from (λ t. rules.type12 (model_read hierarchy.now.model) t) 0 (model_read hierarchy.now.model).types) }
{
    let count = hierarchy.model.type_count();
    let mut rows = step_rows(hierarchy);
    close_rows(&mut rows, count);
    (0..count).find(|t| in_set(rows[*t as usize], *t))
}
