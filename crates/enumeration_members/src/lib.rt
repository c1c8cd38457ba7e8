// The check of enumeration members against their model: rules 1 and 3 to 19 of the model, then 30 and 31.
#![tactic(auto, unfolding(crate::specs::Read::members_read, csdl::specs::Members::members_of))]

mod fields;
mod form;
mod members;
mod names;
mod series;
mod values;

ghost use Rattle.std.specs.Prelude.{◌≡◌};
ghost use Rattle.csdl.specs.Members as rules;
ghost use Rattle.csdl.specs.Verdict.{instance_means, verdict};
ghost use Rattle.enumeration_members.specs.Read.{members_read};
ghost use Rattle.model_image.specs.Read.{model_read};

use csdl::Refusal;
use form::first_30;
use later_images::LaterImage;
use members::Members;
use model_check::check_rules;
use model_image::model::Model;
use series::first_31;

// Rules 30 and 31 at each member.
fn check_each(model: &Model, members: &Members) -> Result<(), Refusal>
    ensures { instance_means result ≡ rules.members_verdict (model_read model.now) (members_read members.now) }
{
    let form = first_30(model, members);
    if let Some(place) = form {
        return Err(Refusal { rule: 30, place });
    }
    let value = first_31(model, members);
    if let Some(place) = value {
        return Err(Refusal { rule: 31, place });
    }
    Ok(())
}

// Rules 30 and 31, of the image of the members. Its tables are not to lie on the stack beside those of the model's rules.
#[inline(never)]
fn check_30_and_31(model: &Model, image: &[u8]) -> Result<(), Refusal>
    ensures { instance_means result ≡ verdict 0 (rules.image_stages image.now) (rules.members_verdict (model_read model.now) (rules.members_in image.now)) }
{
    let image = LaterImage {
        image,
        sizes: &[12],
    };
    if image.is_bad() {
        return Err(Refusal { rule: 30, place: 0 });
    }
    check_each(model, &Members::read(&image))
}

// The check of the members of a model's enumerations.
pub fn check_members(model: &[u8], members: &[u8]) -> Result<(), Refusal>
    ensures { instance_means result ≡ rules.members_answer model.now members.now }
{
    let read = check_rules(model)?;
    check_30_and_31(&read, members)
}
