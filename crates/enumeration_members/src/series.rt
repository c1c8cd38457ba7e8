// Rule 31, of a member among the earlier ones of its type.
ghost use Rattle.std.specs.Prelude.{◌≡◌, Some};
ghost use Rattle.csdl.specs.Members as rules;
ghost use Rattle.csdl.specs.Search.{first_from, found};
ghost use Rattle.enumeration_members.specs.Earlier.{count_of, first_of};
ghost use Rattle.enumeration_members.specs.Read.{members_read};
ghost use Rattle.model_image.specs.Read.{model_read};

use crate::members::Members;
use crate::names::{position, repeats_name};
use crate::values::misfits;
use model_image::model::Model;
use name_classes::first_properties::insert;

// 31b: whether its value is given is unlike at the first member of its type, if there is one before it.
fn unlike_first(members: &Members, first: Option<u16>, member: u16) -> bool
    requires { first ≡ found (first_of (members_read members.now) member ((members_read members.now).member_type member)) }
    ensures { result ≡ rules.member31b (members_read members.now) member }
{
    match first {
        Some(s) => members.given(s) != members.given(member),
        None => false,
    }
}

// Whether the member breaks rule 31: by 31a, by the number of earlier members of its type and the first of them.
fn member_31(
    model: &Model,
    members: &Members,
    repeated: bool,
    count: u16,
    first: Option<u16>,
    member: u16,
) -> bool
    requires { (repeated ≡ rules.member31a (members_read members.now) member) × (count ≡ count_of (members_read members.now) member ((members_read members.now).member_type member)) × (first ≡ found (first_of (members_read members.now) member ((members_read members.now).member_type member))) }
    ensures { result ≡ rules.member31 (model_read model.now) (members_read members.now) member }
{
    repeated | unlike_first(members, first, member) | misfits(model, members, count, member)
}

// The first member that breaks rule 31.
pub(crate) fn first_31(model: &Model, members: &Members) -> Option<u16>
    ensures { result ≡ found (first_from (λ r. rules.member31 (model_read model.now) (members_read members.now) r) 0 (members_read members.now).count) }
{
    let n = members.count();
    let mut order = [1u16; 1024];
    let mut counts = [0u16; 64];
    let mut firsts: [Option<u16>; 64] = [None; 64];
    for member in 0..n {
        let t = members.member_type(member) as usize;
        let at = position(members, &order[..member as usize], member);
        let repeated = repeats_name(members, &order, at, member);
        if member_31(model, members, repeated, counts[t], firsts[t], member) {
            return Some(member);
        }
        insert(&mut order, member, at, member);
        firsts[t] = firsts[t].or(Some(member));
        counts[t] += 1;
    }
    None
}
