// Rule 3: spare bits.
ghost use Rattle.std.specs.Prelude.{◌≡◌};
ghost use Rattle.csdl.specs.Form.{rule3};
ghost use Rattle.model_image.specs.Read.{model_read};

use csdl::Record;
use model_image::model::Model;

// Rule 3 of a record: a spare bit is set.
#[tactic(auto, unfolding(csdl::specs::Form::rule3))]
pub fn rule_3(model: &Model, rec: Record) -> bool
    ensures { result ≡ rule3 (model_read model.now) rec }
{
    match rec {
        Record::OfSchema(_) => false,
        Record::OfType(t) => model.type_spare(t) != 0,
        Record::OfProperty(p) => model.property_spare(p) != 0,
        Record::OfKey(k) => model.key_spare(k) != 0,
        Record::OfConstraint(c) => model.constraint_spare(c) != 0,
        Record::OfChild(h) => model.child_spare(h) != 0,
        Record::OfBinding(b) => model.binding_spare(b) != 0,
        Record::OfSegment(g) => model.segment_spare(g) != 0,
        Record::Nowhere => false,
    }
}
