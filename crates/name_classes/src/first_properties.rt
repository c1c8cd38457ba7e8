// The first property of each name, in the order of the names, and for each property the first that has its name. A name is found by
// halving, so that no choice of names costs more than eleven comparisons a name.
ghost use Rattle.model_image.specs.Read.{model_read};
ghost use Rattle.std.specs.Prelude.{◌≡◌, ℕ, ◌+◌, ◌≤◌, ◌<◌, IfSome, eqb, length, get_or};
ghost use Rattle.packed.specs.Bytes.{same};
ghost use Rattle.csdl.specs.Search.{first_from, found};
ghost use Rattle.name_classes.specs.Order.{before};
ghost use Rattle.name_classes.specs.Classes.{name_of, name_count, name_rank, Sorted, Stands, first_at, Inserted, entry_after, Ranked};

use crate::order::comes_before;
use model_image::model::Model;
use packed::same_bytes;

// Whether property p has a name that comes before the name.
fn named_before(model: &Model, p: u16, name: &[u8]) -> bool
    ensures { result ≡ before (name_of model.now.properties.now model.now.names.now p) name.now }
{
    comes_before(model.property_text(p), name)
}

// Whether property p has the name.
pub fn has_name(model: &Model, p: u16, name: &[u8]) -> bool
    ensures { result ≡ same (name_of model.now.properties.now model.now.names.now p) name.now }
{
    same_bytes(model.property_text(p), name)
}

// Where a name stands among the properties of the order.
fn position(model: &Model, order: &[u16], name: &[u8]) -> u16
    requires { (length order.now ≤ 512) × Sorted (λ p. name_of model.now.properties.now model.now.names.now p) order.now (length order.now) }
    ensures { Stands (λ p. name_of model.now.properties.now model.now.names.now p) order.now (length order.now) name.now result }
{
    order.partition_point(|p| named_before(model, *p, name)) as u16
}

// Puts p at a place of the order, and what stood there and behind it one place on.
pub fn insert(order: &mut [u16], firsts: u16, at: u16, p: u16)
    requires { (at ≤ firsts) × (firsts < length order.old) }
    ensures inserted { Inserted order.old firsts at p order.new }
    ensures by_index { (i : ℕ) → get_or order.new i 0 ≡ entry_after order.old firsts at p i }
{
    let place = at as usize;
    order.copy_within(place..firsts as usize, place + 1);
    order[place] = p;
}

// The property of the name, if it stands at the place.
fn first_at(model: &Model, order: &[u16], at: u16, name: &[u8]) -> Option<u16>
    requires { (i : ℕ) → i < length order.now → get_or order.now i 0 < 512 }
    ensures value { result ≡ found (first_at (λ p. name_of model.now.properties.now model.now.names.now p) order.now (length order.now) at name.now) }
    ensures bound { IfSome result (λ p. p < 512) }
{
    let p = *order.get(at as usize)?;
    has_name(model, p, name).then_some(p)
}

// The first property that has the name, found by the order.
pub fn first_of(model: &Model, index: &[u16], name: &[u8]) -> Option<u16>
    requires { Ranked (λ p. name_of model.now.properties.now model.now.names.now p) ((model_read model.now).properties) (get_or index.now 1536 0) index.now }
    ensures value { result ≡ found (first_from (λ p. same (name_of model.now.properties.now model.now.names.now p) name.now) 0 (model_read model.now).properties) }
    ensures bound { IfSome result (λ p. p < 512) }
{
    let order = &index[..index[1536] as usize];
    first_at(model, order, position(model, order, name), name)
}

// The properties put one after the other among the first of their names. Entries that nothing fills stay 513, above every number of a property.
pub fn ranked(model: &Model) -> [u16; 1793]
    ensures ranked { Ranked (λ p. name_of model.now.properties.now model.now.names.now p) ((model_read model.now).properties) (get_or result 1536 0) result }
    ensures result_value { get_or result 1536 0 ≡ name_count (λ p. name_of model.now.properties.now model.now.names.now p) ((model_read model.now).properties) }
    ensures by_index { (i : ℕ) → i < get_or result 1536 0 → get_or result i 0 + 1 ≡ first_from (λ p. eqb (name_rank (λ p. name_of model.now.properties.now model.now.names.now p) ((model_read model.now).properties) (name_of model.now.properties.now model.now.names.now p)) i) 0 ((model_read model.now).properties) }
    ensures by_index_2 { (p : ℕ) → p < (model_read model.now).properties → get_or result (512 + p) 0 ≡ first_from (λ q. same (name_of model.now.properties.now model.now.names.now q) (name_of model.now.properties.now model.now.names.now p)) 0 ((model_read model.now).properties) }
{
    let mut index = [513u16; 1793];
    let mut firsts: u16 = 0;
    for p in 0..model.property_count() {
        let name = model.property_text(p);
        let order = &index[..firsts as usize];
        let at = position(model, order, name);
        let first = match first_at(model, order, at, name) {
            Some(first) => first,
            None => {
                insert(&mut index, firsts, at, p);
                firsts += 1;
                p
            }
        };
        index[512 + (p as usize)] = first + 1;
    }
    index[1536] = firsts;
    index
}
