// Runs the stored cases. Each line of the file `list` names a check or a walk and the files of its images; the program prints
// the verdict of each, a line to a case, and the bytes of the lent buffer that the line asks for.
#![tactic(auto)]

mod enumerations;
mod instances;
mod line;
mod models;
mod print;

use std::fs;
use std::io::Read;
use std::rt::Files;

// One case: `m`, the check of a model; `i`, that of an instance; `w`, a walk; `e`, the check of members of enumerations.
fn answer(rt: &(impl Print + Eprint + Alloc + Files), text: &[u8]) {
    print::text(rt, line::name(text));
    print::text(rt, b" ");
    match line::letter(text) {
        Some(b'm') => models::check(rt, text),
        Some(b'i') => instances::check(rt, text),
        Some(b'w') => instances::walk(rt, text),
        Some(b'e') => enumerations::check(rt, text),
        _ => print::text(rt, b"unknown"),
    }
    print::text(rt, b"\n");
}

// Reads a line, answers its case and says whether to go on.
fn answer_next(rt: &(impl Print + Eprint + Alloc + Files), list: &mut impl Read) -> bool {
    let mut array = [0u8; line::SIZE];
    let text = input::fill(list, &mut array).bytes;
    if text.len() < line::SIZE {
        return false;
    }
    answer(rt, text);
    true
}

// A proved loop has to end: no list has as many lines.
fn answer_all(rt: &(impl Print + Eprint + Alloc + Files), list: &mut impl Read) {
    for _ in 0..u64::MAX {
        if !answer_next(rt, list) {
            break;
        }
    }
}

fn main(rt: HostRuntime) {
    match fs::open(&rt, "list") {
        Ok(mut list) => answer_all(&rt, &mut list),
        Err(error) => input::fail(&rt, b"list", error),
    }
}
