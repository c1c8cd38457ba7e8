// The check of an instance: rules 1 and 3 to 19 of its model, then 20 to 26.
#![tactic(auto)]

mod images;
mod rules;

ghost use Rattle.std.specs.Prelude.{◌≡◌, IfOk};
ghost use Rattle.csdl.specs.Conforms.{instance_answer, instance_then};
ghost use Rattle.csdl.specs.Image.{model_in};
ghost use Rattle.csdl.specs.Instance.{instance_in};
ghost use Rattle.csdl.specs.Verdict.{instance_means};
ghost use Rattle.instance_image.specs.Limits.{FewSlots};
ghost use Rattle.instance_image.specs.Read.{instance_read};
ghost use Rattle.model_image.specs.Limits.{FewProperties, FewChildren};
ghost use Rattle.model_image.specs.Read.{model_read};
ghost use Rattle.model_rules.specs.Stages.{ResultOf};

use csdl::Refusal;
use images::check_20_to_26;
use instance_image::instance::Instance;
use model_check::check_rules;
use model_image::model::Model;

// The model and the instance of the images.
pub fn check_both<'a>(
    model: &'a [u8],
    instance: &'a [u8],
) -> Result<(Model<'a>, Instance<'a>), Refusal>
    ensures value { ResultOf result (λ o. instance_then model.now instance.now o) }
    ensures read { IfOk result (λ p. (model_read p.0 ≡ model_in model.now) × (instance_read p.1 ≡ instance_in instance.now)) }
    ensures few { IfOk result (λ p. FewProperties p.0.properties.now × FewChildren p.0.children.now × FewSlots p.1.slots.now) }
{
    let model = check_rules(model)?;
    let instance = check_20_to_26(&model, instance)?;
    Ok((model, instance))
}

pub fn check_instance(model: &[u8], instance: &[u8]) -> Result<(), Refusal>
    ensures { instance_means result ≡ instance_answer model.now instance.now }
{
    check_both(model, instance)?;
    Ok(())
}
