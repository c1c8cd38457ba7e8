// 31a: the members that the check has been at in the order of their types and names, so that a name is found by halving.
ghost use Rattle.std.specs.Prelude.{◌≡◌, ◌∷◌, ◌≤◌, ◌<◌, length};
ghost use Rattle.csdl.specs.Members as rules;
ghost use Rattle.enumeration_members.specs.Earlier.{member_key, Ordered};
ghost use Rattle.enumeration_members.specs.Read.{members_read};
ghost use Rattle.name_classes.specs.Classes.{Sorted, Stands};
ghost use Rattle.name_classes.specs.Order.{before};

use crate::members::Members;
use name_classes::order::comes_before;
use packed::same_bytes;

// Whether an earlier member comes before a type and a name.
fn earlier_before(members: &Members, earlier: u16, t: u16, name: &[u8]) -> bool
    ensures { result ≡ before (member_key (members_read members.now) earlier) (t ∷ name.now) }
{
    let s = members.member_type(earlier);
    if s != t {
        return s < t;
    }
    comes_before(members.text(earlier), name)
}

// Where a member stands among the earlier ones. The library's `partition_point` asks of one entry more.
pub(crate) fn position(members: &Members, order: &[u16], member: u16) -> u16
    requires { (length order.now ≤ 1024) × Sorted (λ r. member_key (members_read members.now) r) order.now (length order.now) }
    ensures { Stands (λ r. member_key (members_read members.now) r) order.now (length order.now) (member_key (members_read members.now) member) result }
{
    let t = members.member_type(member);
    let name = members.text(member);
    let mut low: u16 = 0;
    let mut high = order.len() as u16;
    while low < high {
        let mid = (low + high) / 2;
        let earlier = order[mid as usize];
        if earlier_before(members, earlier, t, name) {
            low = mid + 1;
        } else {
            high = mid;
        }
    }
    low
}

// Whether an earlier member has the type and the name of the member.
fn same_member(members: &Members, member: u16, earlier: u16) -> bool
    ensures { result ≡ rules.same_member (members_read members.now) member earlier }
{
    if members.member_type(earlier) != members.member_type(member) {
        return false;
    }
    same_bytes(members.text(earlier), members.text(member))
}

// Whether the member has the name of an earlier one of its type, by the place where it stands.
pub(crate) fn repeats_name(members: &Members, order: &[u16], at: u16, member: u16) -> bool
    requires { Ordered (members_read members.now) member order.now × (member < 1024) × Stands (λ r. member_key (members_read members.now) r) order.now member (member_key (members_read members.now) member) at }
    ensures { result ≡ rules.member31a (members_read members.now) member }
{
    if at < member {
        return same_member(members, member, order[at as usize]);
    }
    false
}
