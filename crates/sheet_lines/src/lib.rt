// The lines of a sheet, put at the end of a text in memory of a fixed size: to print a mark cannot fail.
#![tactic(auto, unfolding(crate::specs::Lines::accepted_line, crate::specs::Lines::refused_line, crate::specs::Lines::segment_line))]

ghost use Rattle.std.specs.Prelude.{◌≡◌, ◌+◌, ◌*◌, ◌≤◌, ◌++◌, get_or, length};
ghost use Rattle.std.specs.Fmt.{decimal};
ghost use Rattle.arrayvec.specs.ArrayString.{array_string_len};
ghost use Rattle.sheet_lines.specs.Lines.{accepted_line, refused_line, segment_line, code_lines};

use arrayvec::ArrayString;
use itoa::Buffer;
use packed::number_at;

// A number of 16 bits has at most five digits.
fn put_number<const N: usize>(text: &mut ArrayString<N>, n: u16)
    requires { array_string_len text.old + 5 ≤ N }
    ensures after { text.new.bytes ≡ text.old.bytes ++ decimal n }
    ensures bound { array_string_len text.new ≤ array_string_len text.old + 5 }
{
    text.push_str(Buffer::new().format(n));
}

pub fn accepted_line<const N: usize>(text: &mut ArrayString<N>, segments: u16)
    requires { array_string_len text.old + 15 ≤ N }
    ensures after { text.new.bytes ≡ text.old.bytes ++ accepted_line segments }
    ensures bound { array_string_len text.new ≤ array_string_len text.old + 15 }
{
    text.push_str("accepted ");
    put_number(text, segments);
    text.push_str("\n");
}

pub fn refused_line<const N: usize>(text: &mut ArrayString<N>, rule: u16, place: u16)
    requires { array_string_len text.old + 26 ≤ N }
    ensures after { text.new.bytes ≡ text.old.bytes ++ refused_line rule place }
    ensures bound { array_string_len text.new ≤ array_string_len text.old + 26 }
{
    text.push_str("refused ");
    put_number(text, rule);
    text.push_str(" place ");
    put_number(text, place);
    text.push_str("\n");
}

// The longest has 21 bytes.
fn segment_line<const N: usize>(text: &mut ArrayString<N>, at: u16, code: u16)
    requires { array_string_len text.old + 21 ≤ N }
    ensures after { text.new.bytes ≡ text.old.bytes ++ segment_line at code }
    ensures bound { array_string_len text.new ≤ array_string_len text.old + 21 }
{
    put_number(text, at);
    if code < 32768 {
        text.push_str(" property ");
        put_number(text, code);
    } else {
        text.push_str(" cast ");
        put_number(text, code - 32768);
    }
    text.push_str("\n");
}

// Code g of a resolution.
fn code_at(codes: &[u8], g: u16) -> u16
    ensures { result ≡ 256 * get_or codes.now (2 * g) 0 + get_or codes.now (2 * g + 1) 0 }
{
    number_at(codes, g)
}

// A line for each of the segments, of which the first has the place `first`.
pub fn segment_lines<const N: usize>(
    text: &mut ArrayString<N>,
    codes: &[u8],
    first: u16,
    count: u16,
)
    requires { (first + count ≤ 2000) × (array_string_len text.old + 21 * count ≤ N) }
    ensures { text.new.bytes ≡ text.old.bytes ++ code_lines codes.now first count }
{
    for g in 0..count {
        segment_line(text, first + g, code_at(codes, g));
    }
}
