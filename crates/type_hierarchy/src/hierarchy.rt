// A model and the ancestors of its types, found once for all that ask.
ghost use Rattle.model_image.specs.Read.{model_read};
ghost use Rattle.std.specs.Prelude.{◌≡◌, ℕ, ◌<◌};
ghost use Rattle.csdl.specs.Find.{ancestor, ancestor_or_self};
ghost use Rattle.type_hierarchy.specs.Sets.{member};
ghost use Rattle.type_hierarchy.specs.AncestorSets.{ancestors_of};

use crate::ancestors::{all_ancestors, ancestors_of};
use crate::bases;
use crate::type_sets::{in_set, with_one};
use model_image::model::Model;

// The ancestors of each type are a set.
#[derive(Clone, Copy)]
pub struct Hierarchy<'a> {
    pub model: Model<'a>,
    pub ancestors: [u64; 64],
    pub ghost ancestors_are: { ancestors ≡ ancestors_of model.types.now },
}

impl<'a> Hierarchy<'a> {
    // The model, and the ancestors of its types.
    pub fn of(model: Model<'a>) -> Self
        ensures { result.model ≡ model.entry }
    {
        Hierarchy {
            model,
            ancestors: all_ancestors(&model),
        }
    }

    // The ancestors of t.
    pub fn ancestors_at(&self, t: u16) -> u64
        ensures { (a : ℕ) → a < 64 → member result a ≡ ancestor (model_read self.now.model) a t }
    {
        if t < self.model.type_count() {
            return self.ancestors[t as usize];
        }
        ancestors_of(&self.model, t)
    }

    // t and its ancestors.
    pub fn with_ancestors(&self, t: u16) -> u64
        ensures { (a : ℕ) → a < 64 → member result a ≡ ancestor_or_self (model_read self.now.model) a t }
    {
        with_one(self.ancestors_at(t), t)
    }

    // Whether t is a or derives from it.
    pub fn ancestor_or_self(&self, a: u16, t: u16) -> bool
        ensures { result ≡ ancestor_or_self (model_read self.now.model) a t }
    {
        if a < 64 {
            return (t == a) | in_set(self.ancestors_at(t), a);
        }
        bases::ancestor_or_self(&self.model, a, t)
    }
}
