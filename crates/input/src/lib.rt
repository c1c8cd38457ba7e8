// The images that a program is given: on standard input, or in the files that its arguments name. What cannot be opened, read or written is
// named on standard error, with the reason. No contract can say which bytes are read; these say that they fit into the arrays.
#![tactic(auto)]

ghost use Rattle.std.specs.Borrow.{Bor};
ghost use Rattle.std.specs.Prelude.{◌≡◌, ◌≤◌, ℕ, Bool, List, length, IfOk, IfSome};

use std::env::FillError;
use std::io::{ErrorKind, Read};
use std::rt::{Env, Files};
use std::{fs, io};

// A byte more than the largest image of a model, so that one that is too long is seen to be.
pub const IMAGE_SIZE: usize = 13349;

// The bytes of the longest path of the system, with the 0 that ends it.
pub const NAME_SIZE: usize = 4096;

// The numbers of two errors, as the system has them.
const INVALID_ARGUMENT: i32 = 22;

const NAME_TOO_LONG: i32 = 36;

// Writes a line to standard error: what failed, as the caller names it, a colon and the reason. Bytes of the name that are not text stand there
// as a replacement character.
pub fn fail(rt: &(impl Eprint + Alloc), what: &[u8], error: io::Error) {
    for part in what.utf8_chunks() {
        let _ = rt.eprint(part.valid());
        if 0 < part.invalid().len() {
            let _ = rt.eprint("\u{FFFD}");
        }
    }
    let _ = rt.eprint(": ");
    let _ = match error.to_string(rt.alloc()) {
        Ok(text) => rt.eprintln(reason(text.as_str())),
        Err(_) => rt.eprintln(error),
    };
}

// The text of an error without the number that stands behind it.
fn reason(text: &str) -> &str {
    match text.split_once(" (os error ") {
        Some((before, _)) => before,
        None => text,
    }
}

// One read.
fn read_some(from: &mut impl Read, image: &mut [u8]) -> io::Result<usize>
    ensures { IfOk result (λ n. n ≤ length image.old) × (length image.new ≡ length image.old) }
{
    from.read(image)
}

// The bytes that an array was given, and how the last read went.
#[derive(Drop)]
pub struct Filled<'a> {
    pub bytes: &'a [u8],
    pub end: io::Result<()>,
}

// Fills the array from its start until it is full, the input ends or a read fails: no method of the library takes less than there is room for.
pub fn fill<'a>(from: &mut impl Read, array: &'a mut [u8]) -> Filled<'a>
    ensures { length result.bytes.now ≤ length array.old }
{
    let mut size: usize = 0;
    while size < array.len() {
        match read_some(from, &mut array[size..]) {
            Ok(0) => break,
            Ok(more) => size += more,
            Err(error) => {
                return Filled {
                    bytes: &array[..size],
                    end: Err(error),
                };
            }
        }
    }
    Filled {
        bytes: &array[..size],
        end: Ok(()),
    }
}

// Reads an image into the array, if every read succeeds. `name` is what a failure names.
pub fn read_image<'a>(
    rt: &(impl Eprint + Alloc),
    from: &mut impl Read,
    name: &[u8],
    array: &'a mut [u8; IMAGE_SIZE],
) -> Option<&'a [u8]>
    ensures { IfSome result (λ image. length image.now ≤ length array.old) }
{
    let filled = fill(from, array);
    match filled.end {
        Ok(()) => Some(filled.bytes),
        Err(error) => {
            fail(rt, name, error);
            None
        }
    }
}

// Opens the file that a name names.
pub fn open<R: Files>(rt: &R, name: &[u8]) -> io::Result<R::File> {
    match str::from_utf8(name) {
        Ok(path) => fs::open(rt, path),
        Err(_) => Err(io::Error::new(ErrorKind::InvalidFilename, "file name is not UTF-8 text")),
    }
}

// Reads the image that a name names into the array; - is standard input.
fn read_named<'a>(
    rt: &(impl Eprint + Alloc + io::Input + Files),
    name: &[u8],
    array: &'a mut [u8; IMAGE_SIZE],
) -> Option<&'a [u8]>
    ensures { IfSome result (λ image. length image.now ≤ length array.old) }
{
    if name == b"-".as_slice() {
        return read_image(rt, &mut rt.reader(), b"standard input", array);
    }
    match open(rt, name) {
        Ok(mut file) => read_image(rt, &mut file, name, array),
        Err(error) => {
            fail(rt, name, error);
            None
        }
    }
}

// Whether the program was given an argument i.
fn has_argument(rt: &impl Env, i: usize) -> bool {
    let mut name = [0u8; 1];
    !matches!(rt.arg(i, &mut name), Err(FillError::NotPresent))
}

// Argument i, if it can be had, put into the array.
fn argument<'a>(rt: &(impl Eprint + Alloc + Env), i: usize, array: &'a mut [u8]) -> Option<&'a [u8]>
    ensures { IfSome result (λ name. length name.now ≤ length array.old) }
{
    match rt.arg(i, array) {
        Ok(n) => Some(&array[..n]),
        Err(error) => {
            fail(rt, b"argument", of_argument(error));
            None
        }
    }
}

// Why an argument could not be had.
fn of_argument(error: FillError) -> io::Error {
    match error {
        FillError::NotPresent => io::Error::from_raw_os_error(INVALID_ARGUMENT),
        FillError::TooLong => io::Error::from_raw_os_error(NAME_TOO_LONG),
    }
}

// Writes the bytes, in one call where the system takes them all, and answers whether it did; a failure is named on standard error.
pub fn written(rt: &(impl Print + Eprint + Alloc), text: &[u8]) -> bool {
    match rt.write_all(text) {
        Ok(()) => true,
        Err(error) => {
            fail(rt, b"standard output", error);
            false
        }
    }
}

// The line above what is shown of an image, if there are several.
fn heading(rt: &(impl Print + Eprint + Alloc), name: &[u8], several: bool) -> bool {
    !several || written(rt, b"== ") && written(rt, name) && written(rt, b"\n")
}

// Shows the image on standard input.
fn show_input<R: Eprint + Alloc + io::Input, F: Fn(&[u8], bool)>(rt: &R, show: &F)
    requires { (image : Bor (List ℕ)) (several : Bool)
        → length image.now ≤ 13349 → F.pre show.now image several }
{
    let mut array = [0u8; IMAGE_SIZE];
    if let Some(image) = read_image(rt, &mut rt.reader(), b"standard input", &mut array) {
        show(image, false);
    }
}

// Shows the image that argument i names, under its heading. What cannot be read is not shown.
fn show_argument<R: Print + Eprint + Alloc + io::Input + Files + Env, F: Fn(&[u8], bool)>(
    rt: &R,
    i: usize,
    several: bool,
    show: &F,
)
    requires { (image : Bor (List ℕ)) (several : Bool)
        → length image.now ≤ 13349 → F.pre show.now image several }
{
    let mut name_array = [0u8; NAME_SIZE];
    let Some(name) = argument(rt, i, &mut name_array) else {
        return;
    };
    let mut array = [0u8; IMAGE_SIZE];
    let Some(image) = read_named(rt, name, &mut array) else {
        return;
    };
    if heading(rt, name, several) {
        show(image, several);
    }
}

// Shows the image on standard input, or that in each file that an argument names; `show` is told whether there are several.
pub fn for_each_image<R: Print + Eprint + Alloc + io::Input + Files + Env, F: Fn(&[u8], bool)>(
    rt: &R,
    show: F,
)
    requires { (image : Bor (List ℕ)) (several : Bool)
        → length image.now ≤ 13349 → F.pre show image several }
{
    if !has_argument(rt, 1) {
        show_input(rt, &show);
        return;
    }
    let several = has_argument(rt, 2);
    for i in 1..usize::MAX {
        if !has_argument(rt, i) {
            break;
        }
        show_argument(rt, i, several, &show);
    }
}
