// Rules 20 to 26 over the image of an instance.
ghost use Rattle.std.specs.Prelude.{◌≡◌, [], ◌∷◌, IfOk};
ghost use Rattle.csdl.specs.Conforms.{instance_stages};
ghost use Rattle.csdl.specs.Instance.{instance_in, image20, instance_places};
ghost use Rattle.csdl.specs.Verdict.{verdict};
ghost use Rattle.csdl.specs.Verdict.Stage.{whole};
ghost use Rattle.instance_image.specs.Limits.{FewSlots};
ghost use Rattle.instance_image.specs.Read.{instance_read};
ghost use Rattle.model_image.specs.Limits.{FewProperties};
ghost use Rattle.model_image.specs.Read.{model_read};
ghost use Rattle.model_rules.specs.Stages.{ResultOf};

use crate::rules::check_21_to_26;
use csdl::Refusal;
use instance_image::image::bad_instance;
use instance_image::instance::Instance;
use model_image::model::Model;

// The instance of the image. The tables of its rules are not to lie on the stack beside those of the rules of the model.
#[tactic(auto, unfolding(csdl::specs::Verdict::verdict))]
#[inline(never)]
pub(crate) fn check_20_to_26<'a>(model: &Model, image: &'a [u8]) -> Result<Instance<'a>, Refusal>
    requires { FewProperties model.now.properties.now }
    ensures value { ResultOf result (λ o. verdict 0 (whole 20 (image20 image.now) ∷ []) (verdict (instance_places (instance_in image.now)) (instance_stages (model_read model.now) (instance_in image.now)) o)) }
    ensures instance { IfOk result (λ i. instance_read i ≡ instance_in image.now) }
    ensures few { IfOk result (λ i. FewSlots i.slots.now) }
{
    if bad_instance(image) {
        return Err(Refusal { rule: 20, place: 0 });
    }
    let instance = Instance::read(image);
    check_21_to_26(model, &instance)?;
    Ok(instance)
}
