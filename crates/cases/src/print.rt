// What is printed of an answer.
use csdl::Refusal;

// Writes the bytes; what cannot be written is missing from the run, which then differs from the stored one.
pub fn text(rt: &impl Print, s: &[u8]) {
    let _ = rt.write_all(s);
}

pub fn model(rt: &impl Print, answer: Result<u16, Refusal>) {
    match answer {
        Ok(segments) => numbered(rt, b"accepted ", segments),
        Err(refusal) => refused(rt, refusal),
    }
}

// The answer of a check that reports no number.
pub fn conforming(rt: &impl Print, answer: Result<(), Refusal>) {
    match answer {
        Ok(()) => text(rt, b"conforms"),
        Err(refusal) => refused(rt, refusal),
    }
}

pub fn refused(rt: &impl Print, refusal: Refusal) {
    numbered(rt, b"refused ", refusal.rule);
    numbered(rt, b" place ", refusal.place);
}

// The first bytes of a buffer, in hexadecimal, behind a word; nothing where none are asked for.
pub fn bytes(rt: &impl Print, word: &[u8], buffer: &[u8], count: u32) {
    if count == 0 {
        return;
    }
    text(rt, word);
    hex(rt, packed::part_of(buffer, 0, count));
}

pub fn numbered(rt: &impl Print, word: &[u8], n: u16) {
    text(rt, word);
    let _ = rt.print(n);
}

fn hex(rt: &impl Print, s: &[u8]) {
    for b in s {
        let _ = print!(rt; "{b:02x}");
    }
}
