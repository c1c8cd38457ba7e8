// Values of members: numbers with a sign, in two's complement, and the ranges of the underlying types.
ghost use Rattle.std.specs.Prelude.{◌≡◌, cond, not};
ghost use Rattle.csdl.specs.Members as rules;
ghost use Rattle.csdl.specs.Members.Signed.{plus};
ghost use Rattle.enumeration_members.specs.Read.{members_read};
ghost use Rattle.model_image.specs.Read.{model_read};

use crate::members::Members;
use model_image::model::Model;

// Whether the number that a field means is one from -down to up.
fn in_range(field: u64, down: u64, up: u64) -> bool
    ensures { result ≡ rules.in_range down up (rules.signed field) }
{
    if field < 9223372036854775808 {
        return field <= up;
    }
    18446744073709551615 - field < down
}

// Whether the number that a field means is a value of the primitive type of a code.
fn fits(code: u16, field: u64) -> bool
    ensures { result ≡ rules.fits code (rules.signed field) }
{
    match code {
        3 => in_range(field, 0, 255),
        10 => in_range(field, 32768, 32767),
        11 => in_range(field, 2147483648, 2147483647),
        12 => in_range(field, 9223372036854775808, 9223372036854775807),
        13 => in_range(field, 128, 127),
        _ => false,
    }
}

// A field that means the member's value: its own where it is given, else the number of earlier members of its type.
fn value_field(members: &Members, earlier: u16, member: u16) -> u64
    ensures { rules.signed result ≡ cond ((members_read members.now).given member) (rules.signed ((members_read members.now).value_field member)) (plus earlier) }
{
    if members.given(member) {
        members.value(member)
    } else {
        earlier as u64
    }
}

// 31c: the member's value is none of the underlying type.
pub(crate) fn misfits(model: &Model, members: &Members, earlier: u16, member: u16) -> bool
    ensures { result ≡ not (rules.fits ((model_read model.now).underlying ((members_read members.now).member_type member)) (cond ((members_read members.now).given member) (rules.signed ((members_read members.now).value_field member)) (plus earlier))) }
{
    let code = model.type_underlying(members.member_type(member));
    !fits(code, value_field(members, earlier, member))
}
