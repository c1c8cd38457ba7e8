// Pieces of a line.

// Where explanations are printed: standard output, with standard error for what cannot be written.
pub trait Output: Print + Eprint + Alloc {}

impl Output for HostRuntime {}

pub fn text(rt: &impl Output, s: &[u8]) {
    input::written(rt, s);
}

pub fn line_end(rt: &impl Output) {
    text(rt, b"\n");
}

// A word and a number.
pub fn numbered(rt: &impl Output, word: &[u8], n: u16) {
    text(rt, word);
    let _ = rt.print(n);
}

// A name behind what stands before it; nothing where there is none.
pub fn named(rt: &impl Output, name: &[u8]) {
    joined(rt, b" ", name);
}

// The same with other bytes between.
pub fn joined(rt: &impl Output, between: &[u8], name: &[u8]) {
    if !name.is_empty() {
        text(rt, between);
        text(rt, name);
    }
}

// Text in a column of 20 bytes and a blank, or as many as it has.
pub fn column(rt: &impl Output, s: &[u8]) {
    text(rt, s);
    text(rt, b" ");
    let blanks = [b' '; 20];
    text(rt, &blanks[s.len().min(20)..]);
}

// A number to the right of a column of 7 bytes, and two blanks.
pub fn right(rt: &impl Output, n: u16) {
    let blanks = [b' '; 6];
    let more_digits = n.checked_ilog10().unwrap_or(0);
    text(rt, &blanks[more_digits as usize..]);
    let _ = rt.print(n);
    text(rt, b"  ");
}
