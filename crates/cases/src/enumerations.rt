// The check of stored members of enumerations.
use crate::models::load;
use crate::{line, print};
use enumeration_members::check_members;
use input::IMAGE_SIZE;
use std::rt::Files;

// A byte more than the largest image of members.
const MEMBERS_SIZE: usize = 16391;

pub fn check(rt: &(impl Print + Eprint + Alloc + Files), text: &[u8]) {
    let mut model = [0u8; IMAGE_SIZE];
    let mut members = [0u8; MEMBERS_SIZE];
    let answer = check_members(
        load(rt, line::model(text), &mut model),
        load(rt, line::second(text), &mut members),
    );
    print::conforming(rt, answer);
}
