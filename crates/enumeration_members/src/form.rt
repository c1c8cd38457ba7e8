// Rule 30, of a member.
ghost use Rattle.std.specs.Prelude.{◌≡◌};
ghost use Rattle.csdl.specs.Later.{later_name4};
ghost use Rattle.csdl.specs.Members as rules;
ghost use Rattle.csdl.specs.Search.{first_from, found};
ghost use Rattle.enumeration_members.specs.Read.{members_read};
ghost use Rattle.model_image.specs.Read.{model_read};
ghost use Rattle.rules_names.specs.Identifiers.{Limits};

use crate::members::Members;
use csdl::TypeKind;
use model_image::fields::Name;
use model_image::model::Model;
use rules_names::names::{identifier_limits, name_5};
use type_hierarchy::kinds::of_kind;

// 30c: a name is absent, or goes past the name bytes.
fn misplaced(names: &[u8], n: Name) -> bool
    ensures { result ≡ later_name4 names.now (record { start = n.start; size = n.size }) }
{
    (n.size == 0) | (names.len() < usize::from(n.start) + usize::from(n.size))
}

// Whether the member breaks rule 30.
fn member_30(model: &Model, members: &Members, limits: &[u16], member: u16) -> bool
    requires { Limits members.now.names.now limits.now }
    ensures { result ≡ rules.member30 (model_read model.now) (members_read members.now) member }
{
    let t = members.member_type(member);
    let name = members.name(member);
    (members.spare(member) != 0)
        | !(t < model.type_count())
        | misplaced(members.names, name)
        | name_5(members.names, limits, name)
        | (!members.given(member) & (members.value(member) != 0))
        | !of_kind(model, TypeKind::Enumeration as u16, t)
}

// The first member that breaks rule 30.
pub(crate) fn first_30(model: &Model, members: &Members) -> Option<u16>
    ensures { result ≡ found (first_from (λ r. rules.member30 (model_read model.now) (members_read members.now) r) 0 (members_read members.now).count) }
{
    let mut limits = [1u16; 4096];
    identifier_limits(members.names, &mut limits);
    (0..members.count()).find(|member| member_30(model, members, &limits, *member))
}
