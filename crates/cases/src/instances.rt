// The check of a stored instance, and walks in it.
use crate::models::{FILL, load};
use crate::{line, print};
use csdl::{Refusal, Walked};
use input::IMAGE_SIZE;
use instance_check::check_instance;
use std::rt::Files;

// A byte more than the largest image of an instance.
const INSTANCE_SIZE: usize = 14345;

pub fn check(rt: &(impl Print + Eprint + Alloc + Files), text: &[u8]) {
    let mut model = [0u8; IMAGE_SIZE];
    let mut instance = [0u8; INSTANCE_SIZE];
    let answer = check_instance(
        load(rt, line::model(text), &mut model),
        load(rt, line::second(text), &mut instance),
    );
    print::conforming(rt, answer);
}

pub fn walk(rt: &(impl Print + Eprint + Alloc + Files), text: &[u8]) {
    let mut model_array = [0u8; IMAGE_SIZE];
    let model = load(rt, line::model(text), &mut model_array);
    let mut instance_array = [0u8; INSTANCE_SIZE];
    let instance = load(rt, line::second(text), &mut instance_array);
    let mut buffer = [FILL; 16384];
    print_walk(rt, walk_lent(model, instance, text, &mut buffer));
    print::bytes(rt, b" results ", &buffer, line::shown(text));
}

// The walk that the line asks for, with the first bytes of the buffer lent, or all of it where it has not so many.
fn walk_lent(
    model: &[u8],
    instance: &[u8],
    text: &[u8],
    buffer: &mut [u8],
) -> Result<Walked, Refusal> {
    let n = buffer.len().min(line::lent(text) as usize);
    walk::walk(
        model,
        instance,
        line::place(text),
        line::path(text),
        line::node(text),
        &mut buffer[..n],
    )
}

fn print_walk(rt: &impl Print, answer: Result<Walked, Refusal>) {
    match answer {
        Ok(walked) => {
            print::numbered(rt, b"walked ", walked.results);
            print::numbered(rt, b" opened ", walked.opened);
        }
        Err(refusal) => print::refused(rt, refusal),
    }
}
