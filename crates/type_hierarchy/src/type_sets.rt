// Sets of types: bit t of the number says whether type t is in the set.
ghost use Rattle.std.specs.Prelude.{◌≡◌, ◌&&◌, ◌||◌, ℕ, ◌<◌, eqb};
ghost use Rattle.csdl.specs.Search.{any_from};
ghost use Rattle.type_hierarchy.specs.Sets.{member};

// Whether t is in the set.
#[tactic(auto, unfolding(crate::specs::Sets::member))]
pub fn in_set(set: u64, t: u16) -> bool
    requires { t < 64 }
    ensures { result ≡ member set t }
{
    (set >> t) % 2 == 1
}

// The set, and x in it; a number above 63 is left out.
pub fn with_one(set: u64, x: u16) -> u64
    ensures { (t : ℕ) → t < 64 → member result t ≡ (member set t || eqb x t) }
{
    if x < 64 {
        return set | (1 << x);
    }
    set
}

// Whether two sets have a type in common.
#[tactic(auto, using(crate::proofs::SetLaws::meet_any))]
pub fn meet(a: u64, b: u64) -> bool
    ensures { result ≡ any_from (λ t. member a t && member b t) 0 64 }
{
    (a & b) != 0
}
