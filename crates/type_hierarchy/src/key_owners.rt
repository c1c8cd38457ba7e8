// Types that have a key.
ghost use Rattle.std.specs.Prelude.{◌≡◌, ℕ, ◌<◌};
ghost use Rattle.csdl.specs.Tables.{key_count};
ghost use Rattle.type_hierarchy.specs.Sets.{member};
ghost use Rattle.type_hierarchy.specs.KeyOwners.{owns_key};

use crate::type_sets::with_one;
use model_image::model::Model;

// The owners of the keys.
pub fn key_owners(model: &Model) -> u64
    ensures { (t : ℕ) → t < 64 → member result t ≡ owns_key model.now.keys.now (key_count model.now.keys.now) t }
{
    let mut owners: u64 = 0;
    for k in 0..model.key_count() {
        owners = with_one(owners, model.key_owner(k));
    }
    owners
}
