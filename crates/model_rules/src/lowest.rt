// The lowest place that breaks a rule, for each of the rules 3 to 19.
ghost use Rattle.std.specs.Prelude.{◌≡◌, length, ℕ, ◌≤◌, get_or};
ghost use Rattle.csdl.specs.Accepted.{Kept};
ghost use Rattle.csdl.specs.Search.{found};
ghost use Rattle.csdl.specs.Form.{rule3, rule4, rule5, rule6, rule7};
ghost use Rattle.csdl.specs.Types.{rule8, rule9};
ghost use Rattle.csdl.specs.Properties.{rule10, rule11, rule12};
ghost use Rattle.csdl.specs.Paths.{rule13, rule14, rule15, rule16, rule17, rule18, rule19};
ghost use Rattle.model_image.specs.Read.{model_read};
ghost use Rattle.model_rules.specs.Stages.{lowest_place};
ghost use Rattle.path_resolution.specs.Coded.{Coded};

use crate::place_in;
use lookup::model::Lookup;
use model_image::model::Model;
use rules_bindings::bindings::first_19;
use rules_bindings::children::{first_child_18, first_property_18};
use rules_bindings::partners::first_17;
use rules_fields::numbers::rule_4;
use rules_fields::spare::rule_3;
use rules_keys::constraints::first_16;
use rules_keys::keys::first_15;
use rules_names::names::{identifier_limits, rule_5};
use rules_names::repeats::{first_child_7, first_type_7};
use rules_names::schemas::first_6;
use rules_redeclaration::first_11;
use rules_required_cycle::required::first_12;
use rules_segments::cover::first_13;
use rules_segments::unresolved::first_14;
use rules_types::properties::first_10;
use rules_types::types::{first_8, first_9};
use type_hierarchy::hierarchy::Hierarchy;

// Rules 3 to 5, of every record.
pub(crate) fn lowest_3(model: &Model) -> Option<u16>
    ensures { result ≡ found (lowest_place (model_read model.now) rule3) }
{
    let places = model.places();
    (0..places.end).find(|p| rule_3(model, places.record_at(*p)))
}

pub(crate) fn lowest_4(model: &Model) -> Option<u16>
    ensures { result ≡ found (lowest_place (model_read model.now) rule4) }
{
    let places = model.places();
    (0..places.end).find(|p| rule_4(model, places.record_at(*p)))
}

pub(crate) fn lowest_5(model: &Model) -> Option<u16>
    ensures { result ≡ found (lowest_place (model_read model.now) rule5) }
{
    let places = model.places();
    let mut limits = [1u16; 4096];
    identifier_limits(model.names, &mut limits);
    (0..places.end).find(|p| rule_5(model, &limits, places.record_at(*p)))
}

// Rule 6, of schemas.
pub(crate) fn lowest_6(model: &Model) -> Option<u16>
    ensures { result ≡ found (lowest_place (model_read model.now) rule6) }
{
    first_6(model)
}

// Rule 7, of types and children.
pub(crate) fn lowest_7(model: &Model) -> Option<u16>
    ensures { result ≡ found (lowest_place (model_read model.now) rule7) }
{
    let of_type = place_in(model.types_at(), first_type_7(model));
    of_type.or(place_in(model.children_at(), first_child_7(model)))
}

// Rules 8 and 9, of types.
pub(crate) fn lowest_8(model: &Model) -> Option<u16>
    ensures { result ≡ found (lowest_place (model_read model.now) rule8) }
{
    place_in(model.types_at(), first_8(model))
}

pub(crate) fn lowest_9(model: &Model) -> Option<u16>
    ensures { result ≡ found (lowest_place (model_read model.now) rule9) }
{
    place_in(model.types_at(), first_9(model))
}

// Rules 10 and 11, of properties.
pub(crate) fn lowest_10(model: &Model) -> Option<u16>
    ensures { result ≡ found (lowest_place (model_read model.now) rule10) }
{
    place_in(model.properties_at(), first_10(model))
}

pub(crate) fn lowest_11(lookup: &Lookup) -> Option<u16>
    ensures { result ≡ found (lowest_place (model_read lookup.now.hierarchy.model) rule11) }
{
    place_in(lookup.hierarchy.model.properties_at(), first_11(lookup))
}

// Rule 12, of types.
pub(crate) fn lowest_12(hierarchy: &Hierarchy) -> Option<u16>
    ensures { result ≡ found (lowest_place (model_read hierarchy.now.model) rule12) }
{
    place_in(hierarchy.model.types_at(), first_12(hierarchy))
}

// Rule 13, of segments.
pub(crate) fn lowest_13(model: &Model) -> Option<u16>
    ensures { result ≡ found (lowest_place (model_read model.now) rule13) }
{
    place_in(model.segments_at(), first_13(model))
}

// Rule 14, of segments, whose codes it keeps.
pub(crate) fn lowest_14(lookup: &Lookup, codes: &mut [u32]) -> Option<u16>
    requires { Kept (model_read lookup.now.hierarchy.model) rule4 × Kept (model_read lookup.now.hierarchy.model) rule13 × (length codes.old ≡ 1024) }
    ensures value { result ≡ found (lowest_place (model_read lookup.now.hierarchy.model) rule14) }
    ensures coded { Coded (model_read lookup.now.hierarchy.model) codes.new }
    ensures codes_len_unchanged { (length codes.new ≡ length codes.old) × ((g : ℕ) → (model_read lookup.now.hierarchy.model).segments ≤ g → get_or codes.new g 0 ≡ get_or codes.old g 0) }
{
    place_in(
        lookup.hierarchy.model.segments_at(),
        first_14(lookup, codes),
    )
}

// Rule 15, of keys.
pub(crate) fn lowest_15(lookup: &Lookup, codes: &[u32]) -> Option<u16>
    requires { Coded (model_read lookup.now.hierarchy.model) codes.now × Kept (model_read lookup.now.hierarchy.model) rule4 × Kept (model_read lookup.now.hierarchy.model) rule14 }
    ensures { result ≡ found (lowest_place (model_read lookup.now.hierarchy.model) rule15) }
{
    place_in(lookup.hierarchy.model.keys_at(), first_15(lookup, codes))
}

// Rule 16, of constraints.
pub(crate) fn lowest_16(model: &Model, codes: &[u32]) -> Option<u16>
    requires { Coded (model_read model.now) codes.now }
    ensures { result ≡ found (lowest_place (model_read model.now) rule16) }
{
    place_in(model.constraints_at(), first_16(model, codes))
}

// Rule 17, of properties.
pub(crate) fn lowest_17(hierarchy: &Hierarchy, codes: &[u32]) -> Option<u16>
    requires { Coded (model_read hierarchy.now.model) codes.now }
    ensures { result ≡ found (lowest_place (model_read hierarchy.now.model) rule17) }
{
    place_in(hierarchy.model.properties_at(), first_17(hierarchy, codes))
}

// Rule 18, of properties and children.
pub(crate) fn lowest_18(hierarchy: &Hierarchy) -> Option<u16>
    ensures { result ≡ found (lowest_place (model_read hierarchy.now.model) rule18) }
{
    let model = &hierarchy.model;
    let of_property = place_in(model.properties_at(), first_property_18(hierarchy));
    of_property.or(place_in(model.children_at(), first_child_18(hierarchy)))
}

// Rule 19, of bindings.
pub(crate) fn lowest_19(lookup: &Lookup, codes: &[u32]) -> Option<u16>
    requires { Coded (model_read lookup.now.hierarchy.model) codes.now × Kept (model_read lookup.now.hierarchy.model) rule4 × Kept (model_read lookup.now.hierarchy.model) rule14 }
    ensures { result ≡ found (lowest_place (model_read lookup.now.hierarchy.model) rule19) }
{
    place_in(
        lookup.hierarchy.model.bindings_at(),
        first_19(&lookup.hierarchy, &lookup.index, codes),
    )
}
