// The check of a model image, rules 1 to 19: the first that is broken and its lowest place, or acceptance and what the segments resolve to.
#![tactic(auto)]

ghost use Rattle.std.specs.Prelude.{◌≡◌, [], ◌∷◌, length, IfOk, OnOk};
ghost use Rattle.csdl.specs.Image.{model_in};
ghost use Rattle.csdl.specs.Verdict as verdicts;
ghost use Rattle.model_image.specs.Limits.{FewProperties, FewChildren};
ghost use Rattle.model_image.specs.Read.{model_read};
ghost use Rattle.model_image.specs.Sized.{Sized};
ghost use Rattle.model_rules.specs.Stages.{ResultOf};
ghost use Rattle.path_resolution.specs.Coded.{Coded};

use csdl::Refusal;
use lookup::model::Lookup;
use model_image::image::bad_image;
use model_image::model::Model;
use model_rules::{check_3_to_5, check_6_to_10, check_11_to_14, check_15_to_19};
use path_resolution::bytes::write_resolution;
use type_hierarchy::hierarchy::Hierarchy;

// Rules 3 to 19. The ancestors of the types and the index of the names are made once rules 3 to 10 are unbroken. Where all rules are, the codes of the
// segments are kept. Its tables are not to lie on the stack beside those of the rules of an instance.
#[inline(never)]
fn check_3_to_19<'a>(image: &'a [u8], codes: &mut [u32]) -> Result<Model<'a>, Refusal>
    requires { Sized image.now × (length codes.old ≡ 1024) }
    ensures value { ResultOf result (λ o. verdicts.model_verdict (model_in image.now) o) }
    ensures model { IfOk result (λ m. model_read m ≡ model_in image.now) }
    ensures few { IfOk result (λ m. FewProperties m.properties.now × FewChildren m.children.now) }
    ensures coded { OnOk result (Coded (model_in image.now) codes.new) }
{
    let model = Model::read(image);
    check_3_to_5(&model)?;
    check_6_to_10(&model)?;
    let lookup = Lookup::of(Hierarchy::of(model));
    check_11_to_14(&lookup, codes)?;
    check_15_to_19(&lookup, codes)?;
    Ok(model)
}

// The check without rule 2, as the later calls have it: the model of the image.
pub fn check_rules<'a>(image: &'a [u8]) -> Result<Model<'a>, Refusal>
    ensures value { ResultOf result (λ o. verdicts.model_then image.now o) }
    ensures model { IfOk result (λ m. model_read m ≡ model_in image.now) }
    ensures few { IfOk result (λ m. FewProperties m.properties.now × FewChildren m.children.now) }
{
    if bad_image(image) {
        return Err(Refusal { rule: 1, place: 0 });
    }
    // any number serves, since rule 14 sets every code; an array of zeros would be cleared byte by byte
    let mut codes = [1u32; 1024];
    check_3_to_19(image, &mut codes)
}

// The check of a model: the number of its segments. Where it accepts, the buffer gets what the segments resolve to.
pub fn check_model(image: &[u8], resolution: &mut [u8]) -> Result<u16, Refusal>
    ensures result_value { verdicts.model_means result ≡ verdicts.model_answer image.now resolution.old }
    ensures resolution_after { resolution.new ≡ verdicts.model_buffer image.now resolution.old }
{
    if bad_image(image) {
        return Err(Refusal { rule: 1, place: 0 });
    }
    let segments = Model::read(image).segment_count();
    if resolution.len() < 2 * (segments as usize) {
        return Err(Refusal { rule: 2, place: 0 });
    }
    // any number serves, since rule 14 sets every code; an array of zeros would be cleared byte by byte
    let mut codes = [1u32; 1024];
    check_3_to_19(image, &mut codes)?;
    write_resolution(&codes, segments, resolution);
    Ok(segments)
}
