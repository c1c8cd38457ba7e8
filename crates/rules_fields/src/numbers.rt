// Rule 4: numbers below their counts, names and paths within their tables.
ghost use Rattle.std.specs.Prelude.{◌≡◌};
ghost use Rattle.csdl.specs.Form.{name4, optional_name4, path4, optional_path4, reference4h, schema4, type4, property4, key4, constraint4, child4, binding4, segment4, rule4};
ghost use Rattle.model_image.specs.Read.{model_read};
ghost use Rattle.rules_fields.specs.Fields.{name_of};

use csdl::{Record, Run};
use model_image::fields::Name;
use model_image::model::Model;

// Of a name that may be absent.
#[tactic(auto, unfolding(csdl::specs::Form::optional_name4, csdl::specs::Model::model_of, model_image::specs::Read::model_read))]
fn optional_name_4(model: &Model, n: Name) -> bool
    ensures { result ≡ optional_name4 (model_read model.now) (name_of n.start n.size) }
{
    if n.size == 0 {
        return n.start != 0;
    }
    model.names.len() < usize::from(n.start) + usize::from(n.size)
}

// Of a name that may not be absent.
#[tactic(auto, unfolding(csdl::specs::Form::name4, csdl::specs::Form::optional_name4))]
fn name_4(model: &Model, n: Name) -> bool
    ensures { result ≡ name4 (model_read model.now) (name_of n.start n.size) }
{
    (n.size == 0) | optional_name_4(model, n)
}

// Of a path that may be absent.
#[tactic(auto, unfolding(csdl::specs::Form::optional_path4))]
fn optional_path_4(model: &Model, path: Run) -> bool
    ensures { result ≡ optional_path4 (model_read model.now) path }
{
    if path.count == 0 {
        return path.first != 0;
    }
    u32::from(model.segment_count()) < u32::from(path.first) + u32::from(path.count)
}

// Of a path that may not be absent.
#[tactic(auto, unfolding(csdl::specs::Form::path4, csdl::specs::Form::optional_path4))]
fn path_4(model: &Model, path: Run) -> bool
    ensures { result ≡ path4 (model_read model.now) path }
{
    (path.count == 0) | optional_path_4(model, path)
}

// Of a type reference.
#[tactic(auto, unfolding(csdl::specs::Form::reference4h))]
fn reference_4(model: &Model, x: u16) -> bool
    ensures { result ≡ reference4h (model_read model.now) x }
{
    (model.type_count() <= x) & !(65..=81).contains(&x)
}

#[tactic(auto, unfolding(csdl::specs::Form::schema4))]
fn schema_4(model: &Model, s: u16) -> bool
    ensures { result ≡ schema4 (model_read model.now) s }
{
    name_4(model, model.schema_namespace(s)) | optional_name_4(model, model.schema_alias(s))
}

#[tactic(auto, unfolding(csdl::specs::Form::type4))]
fn type_4(model: &Model, t: u16) -> bool
    ensures { result ≡ type4 (model_read model.now) t }
{
    !(model.type_schema(t) < model.schema_count())
        | !(model.type_base(t) < model.type_count() + 1)
        | (3 < model.type_kind(t))
        | (17 < model.type_underlying(t))
        | name_4(model, model.type_name(t))
}

#[tactic(auto, unfolding(csdl::specs::Form::property4))]
fn property_4(model: &Model, p: u16) -> bool
    ensures { result ≡ property4 (model_read model.now) p }
{
    !(model.property_owner(p) < model.type_count())
        | reference_4(model, model.property_type_ref(p))
        | name_4(model, model.property_name(p))
        | optional_path_4(model, model.property_partner(p))
}

#[tactic(auto, unfolding(csdl::specs::Form::key4))]
fn key_4(model: &Model, k: u16) -> bool
    ensures { result ≡ key4 (model_read model.now) k }
{
    !(model.key_owner(k) < model.type_count())
        | path_4(model, model.key_path(k))
        | optional_name_4(model, model.key_alias(k))
}

#[tactic(auto, unfolding(csdl::specs::Form::constraint4))]
fn constraint_4(model: &Model, c: u16) -> bool
    ensures { result ≡ constraint4 (model_read model.now) c }
{
    !(model.constraint_property(c) < model.property_count())
        | path_4(model, model.constraint_dependent(c))
        | path_4(model, model.constraint_principal(c))
}

#[tactic(auto, unfolding(csdl::specs::Form::child4))]
fn child_4(model: &Model, h: u16) -> bool
    ensures { result ≡ child4 (model_read model.now) h }
{
    !(model.child_type(h) < model.type_count()) | name_4(model, model.child_name(h))
}

#[tactic(auto, unfolding(csdl::specs::Form::binding4))]
fn binding_4(model: &Model, b: u16) -> bool
    ensures { result ≡ binding4 (model_read model.now) b }
{
    let count = model.child_count();
    !(model.binding_child(b) < count)
        | path_4(model, model.binding_path(b))
        | !(model.binding_target(b) < count)
        | optional_path_4(model, model.binding_target_path(b))
}

#[tactic(auto, unfolding(csdl::specs::Form::segment4))]
fn segment_4(model: &Model, g: u16) -> bool
    ensures { result ≡ segment4 (model_read model.now) g }
{
    if model.segment_cast(g) {
        return !(model.segment_type(g) < model.type_count() as u32);
    }
    name_4(model, model.segment_name(g))
}

// Rule 4 of a record.
#[tactic(auto, unfolding(csdl::specs::Form::rule4))]
pub fn rule_4(model: &Model, rec: Record) -> bool
    ensures { result ≡ rule4 (model_read model.now) rec }
{
    match rec {
        Record::OfSchema(s) => schema_4(model, s),
        Record::OfType(t) => type_4(model, t),
        Record::OfProperty(p) => property_4(model, p),
        Record::OfKey(k) => key_4(model, k),
        Record::OfConstraint(c) => constraint_4(model, c),
        Record::OfChild(h) => child_4(model, h),
        Record::OfBinding(b) => binding_4(model, b),
        Record::OfSegment(g) => segment_4(model, g),
        Record::Nowhere => false,
    }
}
