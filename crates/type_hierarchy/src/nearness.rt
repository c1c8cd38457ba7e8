// How near each type is on the climb from a type.
ghost use Rattle.model_image.specs.Read.{model_read};
ghost use Rattle.std.specs.Prelude.{◌≡◌, ◌<◌};
ghost use Rattle.type_hierarchy.specs.Nearness as specs;

use model_image::model::Model;

// The climb from t with `left` types left: each type that it meets for the first time keeps how many are left there.
fn climb(model: &Model, nearness: &mut [u16; 128], t: u16, left: u16)
    requires { t < 128 }
    ensures { specs.Climbed (λ u. (model_read model.now).base u) left t nearness.old nearness.new }
{
    if left == 0 {
        return;
    }
    if nearness[t as usize] == 0 {
        nearness[t as usize] = left;
    }
    if let Some(base) = model.base_type(t) {
        climb(model, nearness, base, left - 1)
    }
}

// How near each type is to t.
pub fn nearness_of(model: &Model, t: u16) -> [u16; 128]
    requires { t < 128 }
    ensures { result ≡ specs.nearness_of (λ u. (model_read model.now).base u) (model_read model.now).types t }
{
    let mut nearness = [0u16; 128];
    climb(model, &mut nearness, t, model.type_count());
    nearness
}
