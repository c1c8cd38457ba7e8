// The check of a stored model.
ghost use Rattle.std.specs.Prelude.{◌≤◌, length};

use crate::{line, print};
use csdl::Refusal;
use input::IMAGE_SIZE;
use std::rt::Files;

// What each byte of a buffer holds before the call.
pub const FILL: u8 = 238;

// Reads a file into the array; a read that fails counts as the end. A file that cannot be opened is named among the verdicts, so that the run differs from
// the stored one, and reads as no bytes.
pub fn load<'a>(
    rt: &(impl Print + Eprint + Alloc + Files),
    path: &[u8],
    array: &'a mut [u8],
) -> &'a [u8]
    ensures { length result.now ≤ length array.old }
{
    match input::open(rt, path) {
        Ok(mut file) => input::fill(&mut file, array).bytes,
        Err(error) => {
            input::fail(rt, path, error);
            print::text(rt, b"unread ");
            &[]
        }
    }
}

pub fn check(rt: &(impl Print + Eprint + Alloc + Files), text: &[u8]) {
    let mut array = [0u8; IMAGE_SIZE];
    let image = load(rt, line::model(text), &mut array);
    let mut buffer = [FILL; 4096];
    let answer = check_lent(image, &mut buffer, line::lent(text));
    print::model(rt, answer);
    print::bytes(rt, b" buffer ", &buffer, line::shown(text));
}

// The check with the first bytes of the buffer lent, or all of it where it has not so many.
fn check_lent(image: &[u8], buffer: &mut [u8], lent: u32) -> Result<u16, Refusal> {
    let n = buffer.len().min(lent as usize);
    model_check::check_model(image, &mut buffer[..n])
}
