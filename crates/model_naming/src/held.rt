// The name that a record holds.
ghost use Rattle.std.specs.Prelude.{◌≡◌};
ghost use Rattle.csdl.specs.Naming.{name_held, record_name};
ghost use Rattle.model_image.specs.Read.{model_read};
ghost use Rattle.model_naming.specs.Named.{name_at};

use csdl::Record;
use model_image::fields::Name;
use model_image::image::bad_image;
use model_image::model::Model;
use model_rules::check_3_to_5;

const NO_NAME: Name = Name { start: 0, size: 0 };

// The name of the type that a cast goes to.
fn cast_name(model: &Model, t: u32) -> Name
    ensures { (result.start ≡ ((model_read model.now).type_name t).start) × (result.size ≡ ((model_read model.now).type_name t).size) }
{
    if t < 64 {
        return model.type_name(t as u16);
    }
    NO_NAME
}

// The name of a segment, or of the type that it casts to.
#[tactic(auto, unfolding(csdl::specs::Naming::name_held))]
fn segment_held(model: &Model, g: u16) -> Name
    ensures { (result.start ≡ (name_held (model_read model.now) (Record.OfSegment g)).start) × (result.size ≡ (name_held (model_read model.now) (Record.OfSegment g)).size) }
{
    if model.segment_cast(g) {
        return cast_name(model, model.segment_type(g));
    }
    model.segment_name(g)
}

// The name that a record holds.
#[tactic(auto, unfolding(csdl::specs::Naming::name_held))]
fn name_held(model: &Model, rec: Record) -> Name
    ensures { (result.start ≡ (name_held (model_read model.now) rec).start) × (result.size ≡ (name_held (model_read model.now) rec).size) }
{
    match rec {
        Record::OfSchema(s) => model.schema_namespace(s),
        Record::OfType(t) => model.type_name(t),
        Record::OfProperty(p) => model.property_name(p),
        Record::OfKey(k) => model.key_alias(k),
        Record::OfConstraint(_) => NO_NAME,
        Record::OfChild(h) => model.child_name(h),
        Record::OfBinding(_) => NO_NAME,
        Record::OfSegment(g) => segment_held(model, g),
        Record::Nowhere => NO_NAME,
    }
}

// The name of the record at a place, if rules 3 to 5 are unbroken.
fn name_at(model: &Model, place: u16) -> Name
    ensures { (result.start ≡ (name_at (model_read model.now) place).start) × (result.size ≡ (name_at (model_read model.now) place).size) }
{
    if check_3_to_5(model).is_err() {
        return NO_NAME;
    }
    name_held(model, model.places().record_at(place))
}

// The name of the record at a place of any image.
pub(crate) fn record_name(image: &[u8], place: u32) -> Name
    ensures { (result.start ≡ (record_name image.now place).start) × (result.size ≡ (record_name image.now place).size) }
{
    if bad_image(image) {
        return NO_NAME;
    }
    let Ok(place) = u16::try_from(place) else {
        return NO_NAME;
    };
    name_at(&Model::read(image), place)
}
