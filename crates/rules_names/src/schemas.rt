// Rule 6: namespaces and aliases of schemas.
ghost use Rattle.std.specs.Prelude.{◌≡◌, ◌||◌};
ghost use Rattle.csdl.specs.Form as rules;
ghost use Rattle.csdl.specs.Search.{first_from, found};
ghost use Rattle.model_image.specs.Read.{model_read};

use model_image::fields::text_of;
use model_image::model::Model;
use packed::same_bytes;

// One of the four reserved names.
#[tactic(auto, unfolding(csdl::specs::Form::reserved))]
fn is_reserved(s: &[u8]) -> bool
    ensures { result ≡ rules.reserved s.now }
{
    same_bytes(s, b"Edm")
        | same_bytes(s, b"odata")
        | same_bytes(s, b"System")
        | same_bytes(s, b"Transient")
}

// Whether the bytes are the namespace or the alias of schema j.
#[tactic(auto, unfolding(csdl::specs::Form::names_schema, model_image::specs::Read::model_read, csdl::specs::Model::model_of))]
fn names_schema(model: &Model, s: &[u8], j: u16) -> bool
    ensures { result ≡ rules.names_schema (model_read model.now) s.now j }
{
    let alias = model.schema_alias(j);
    same_bytes(s, model.namespace_text(j))
        | ((alias.size != 0) & same_bytes(s, text_of(model.names, alias)))
}

// 6a, 6b: a name is reserved, or the alias is the namespace.
#[tactic(auto, unfolding(model_image::specs::Read::model_read, csdl::specs::Model::model_of))]
fn schema_6ab(model: &Model, i: u16) -> bool
    ensures { result ≡ (rules.schema6a (model_read model.now) i || rules.schema6b (model_read model.now) i) }
{
    let namespace = model.namespace_text(i);
    let named = model.schema_alias(i);
    let alias = text_of(model.names, named);
    is_reserved(namespace)
        | ((named.size != 0) & is_reserved(alias))
        | ((named.size != 0) & same_bytes(alias, namespace))
}

// Whether schema i has one of the names of schema j.
#[tactic(auto, unfolding(csdl::specs::Form::shares_name, model_image::specs::Read::model_read, csdl::specs::Model::model_of))]
fn shares_name(model: &Model, i: u16, j: u16) -> bool
    ensures { result ≡ rules.shares_name (model_read model.now) i j }
{
    let alias = model.schema_alias(i);
    names_schema(model, model.namespace_text(i), j)
        | ((alias.size != 0) & names_schema(model, text_of(model.names, alias), j))
}

// 6c: a name is one of an earlier schema's.
fn schema_6c(model: &Model, i: u16) -> bool
    ensures { result ≡ rules.schema6c (model_read model.now) i }
{
    (0..i).any(|j| shares_name(model, i, j))
}

// Rule 6 of schema i.
#[tactic(auto, unfolding(csdl::specs::Form::schema6))]
fn schema_6(model: &Model, i: u16) -> bool
    ensures { result ≡ rules.schema6 (model_read model.now) i }
{
    schema_6ab(model, i) | schema_6c(model, i)
}

// The first schema that breaks rule 6.
pub fn first_6(model: &Model) -> Option<u16>
    ensures { result ≡ found (first_from (λ i. rules.schema6 (model_read model.now) i) 0 ((model_read model.now).schemas)) }
{
    (0..model.schema_count()).find(|i| schema_6(model, *i))
}
