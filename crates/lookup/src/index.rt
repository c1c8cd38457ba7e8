// An index of the properties by name, made once for all that look a name up. Entries from 0 on: the number of the first property of each name,
// in the order of the names. Entry 512 + p: the first property that has the name of p; entry 1024 + p: the next that has it; 0 for none, else
// a property's number plus 1. Entry 1536: how many names there are. Entries from 1537 on: for each of 256 buckets some property, where a lookup
// looks first; it may be any, since the name is compared.
ghost use Rattle.model_image.specs.Limits.{FewProperties};
ghost use Rattle.model_image.specs.Read.{model_read};
ghost use Rattle.std.specs.Prelude.{◌≡◌, ℕ, ◌+◌, ◌<◌, eqb, get_or};
ghost use Rattle.csdl.specs.Search.{first_from, found};
ghost use Rattle.name_classes.specs.Classes.{name_of, name_count, name_rank};
ghost use Rattle.lookup.specs.Index as chains;

use crate::buckets::bucket_of;
use crate::model::Lookup;
use model_image::model::Model;
use name_classes::first_properties::ranked;
use type_hierarchy::hierarchy::Hierarchy;

// The index, its chains filled from the last property to the first: `later` has the property of each name that was met last.
fn index_of(model: &Model) -> [u16; 1793]
    requires { FewProperties model.now.properties.now }
    ensures indexed { chains.Indexed model.now.properties.now model.now.names.now result }
    ensures result_value { get_or result 1536 0 ≡ name_count (λ p. name_of model.now.properties.now model.now.names.now p) ((model_read model.now).properties) }
    ensures by_index { (i : ℕ) → i < get_or result 1536 0 → get_or result i 0 + 1 ≡ first_from (λ p. eqb (name_rank (λ p. name_of model.now.properties.now model.now.names.now p) ((model_read model.now).properties) (name_of model.now.properties.now model.now.names.now p)) i) 0 ((model_read model.now).properties) }
    ensures by_index_2 { (p : ℕ) → p < (model_read model.now).properties → (get_or result (512 + p) 0 ≡ chains.named_from model.now.properties.now model.now.names.now (name_of model.now.properties.now model.now.names.now p) 0) × (get_or result (1024 + p) 0 ≡ chains.named_from model.now.properties.now model.now.names.now (name_of model.now.properties.now model.now.names.now p) (p + 1)) }
{
    let mut index = ranked(model);
    let mut later = [0u16; 513];
    for p in (0..model.property_count()).rev() {
        let first = index[512 + (p as usize)] as usize;
        index[1024 + (p as usize)] = later[first];
        later[first] = p + 1;
        index[1537 + (bucket_of(model.property_text(p)) as usize)] = p + 1;
    }
    index
}

impl<'a> Lookup<'a> {
    pub fn of(hierarchy: Hierarchy<'a>) -> Self
        requires { FewProperties hierarchy.model.properties.now }
        ensures hierarchy_value { result.hierarchy ≡ hierarchy.entry }
        ensures count_value { get_or result.index 1536 0 ≡ name_count (λ p. name_of hierarchy.entry.model.properties.now hierarchy.entry.model.names.now p) ((model_read hierarchy.entry.model).properties) }
        ensures by_rank { (i : ℕ) → i < get_or result.index 1536 0 → get_or result.index i 0 + 1 ≡ first_from (λ p. eqb (name_rank (λ p. name_of hierarchy.entry.model.properties.now hierarchy.entry.model.names.now p) ((model_read hierarchy.entry.model).properties) (name_of hierarchy.entry.model.properties.now hierarchy.entry.model.names.now p)) i) 0 ((model_read hierarchy.entry.model).properties) }
        ensures by_property { (p : ℕ) → p < (model_read hierarchy.entry.model).properties → (get_or result.index (512 + p) 0 ≡ chains.named_from hierarchy.entry.model.properties.now hierarchy.entry.model.names.now (name_of hierarchy.entry.model.properties.now hierarchy.entry.model.names.now p) 0) × (get_or result.index (1024 + p) 0 ≡ chains.named_from hierarchy.entry.model.properties.now hierarchy.entry.model.names.now (name_of hierarchy.entry.model.properties.now hierarchy.entry.model.names.now p) (p + 1)) }
    {
        Lookup {
            hierarchy,
            index: index_of(&hierarchy.model),
        }
    }

    // The first property that has the name of p, and the next.
    pub fn first_alike(&self, p: u16) -> Option<u16>
        requires { p < 512 }
        ensures { result ≡ found (get_or self.now.index (512 + p) 0) }
    {
        self.index[512 + (p as usize)].checked_sub(1)
    }

    pub fn next_alike(&self, p: u16) -> Option<u16>
        requires { p < 512 }
        ensures { result ≡ found (get_or self.now.index (1024 + p) 0) }
    {
        self.index[1024 + (p as usize)].checked_sub(1)
    }
}
