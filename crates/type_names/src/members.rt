// The names of a type: of each name the nearest declaration. A name is known by the entry of its properties in the index.
ghost use Rattle.model_image.specs.Limits.{FewProperties};
ghost use Rattle.model_image.specs.Read.{model_read};
ghost use Rattle.std.specs.Prelude.{◌≡◌, ◌&&◌, ℕ, ◌+◌, ◌<◌, ltb, length, get_or};
ghost use Rattle.csdl.specs.Find.{is_name_of};
ghost use Rattle.name_classes.specs.Classes.{name_of, Ranked};
ghost use Rattle.type_names.specs.Wide.{MembersWide};
ghost use Rattle.type_names.specs.Nearest as specs;

use crate::wide::with_wide;
use model_image::model::Model;
use type_hierarchy::nearness::nearness_of;

// What each name means at t, at the place of the name's entry: 0 for none, else the property's number plus 1.
fn meaning_of(model: &Model, index: &[u16], t: u16) -> [u16; 513]
    requires { FewProperties model.now.properties.now × (t < 128) × (length index.now ≡ 1793) × ((p : ℕ) → p < (model_read model.now).properties → get_or index.now (512 + p) 0 < 513) }
    ensures { specs.Meaning model.now.types.now model.now.properties.now index.now t result }
{
    let nearness = nearness_of(model, t);
    let mut nearest = [0u16; 513];
    let mut near = [0u16; 513];
    for p in 0..model.property_count() {
        let h = index[512 + (p as usize)] as usize;
        let left = nearness[model.property_owner(p) as usize];
        if near[h] < left {
            near[h] = left;
            nearest[h] = p + 1;
        }
    }
    nearest
}

// The names of t.
pub fn names_of(model: &Model, index: &[u16], t: u16) -> [u64; 8]
    requires { FewProperties model.now.properties.now × (t < 128) × Ranked (λ p. name_of model.now.properties.now model.now.names.now p) ((model_read model.now).properties) (get_or index.now 1536 0) index.now }
    ensures { (length result ≡ 8) × MembersWide result 0 (λ p. ltb p ((model_read model.now).properties) && is_name_of (model_read model.now) t p) }
{
    let nearest = meaning_of(model, index, t);
    let mut set = [0u64; 8];
    for p in 0..model.property_count() {
        if nearest[index[512 + (p as usize)] as usize] == p + 1 {
            // By a name of its own: the check takes no call's array straight into a variable that was lent.
            let next = with_wide(set, p);
            set = next;
        }
    }
    set
}
