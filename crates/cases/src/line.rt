// A line of the list: columns of text, padded with blanks, and of decimal digits.
ghost use Rattle.std.specs.Prelude.{◌≤◌};

// The bytes of a line, its end with them.
pub const SIZE: usize = 190;

pub fn letter(text: &[u8]) -> Option<u8> {
    text.first().copied()
}

pub fn name(text: &[u8]) -> &[u8] {
    column(text, 2, 40)
}

// The file of the model's image.
pub fn model(text: &[u8]) -> &[u8] {
    column(text, 43, 50)
}

// The file of the second image: the instance's, or that of the members.
pub fn second(text: &[u8]) -> &[u8] {
    column(text, 94, 50)
}

// How many bytes of the buffer are lent.
pub fn lent(text: &[u8]) -> u32 {
    number(packed::part_of(text, 145, 5))
}

// How many bytes of the buffer are printed.
pub fn shown(text: &[u8]) -> u32 {
    number(packed::part_of(text, 151, 5))
}

// The place, the path and the start node of a walk.
pub fn place(text: &[u8]) -> u32 {
    number(packed::part_of(text, 157, 10))
}

pub fn path(text: &[u8]) -> u32 {
    number(packed::part_of(text, 168, 10))
}

pub fn node(text: &[u8]) -> u32 {
    number(packed::part_of(text, 179, 10))
}

// What stands in a column, up to the first of the blanks that pad it.
fn column(text: &[u8], start: u32, width: u32) -> &[u8] {
    let padded = packed::part_of(text, start, width);
    let size = padded
        .iter()
        .position(|b| *b == b' ')
        .unwrap_or(padded.len());
    &padded[..size]
}

// The number that decimal digits spell, modulo 2^32; other bytes count as 0.
fn number(digits: &[u8]) -> u32 {
    digits
        .iter()
        .fold(0, |n: u32, b| n.wrapping_mul(10).wrapping_add(digit(*b)))
}

fn digit(b: u8) -> u32
    ensures { result ≤ 9 }
{
    char::from(b).to_digit(10).unwrap_or(0)
}
