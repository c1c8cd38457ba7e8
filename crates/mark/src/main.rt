// Prints the sheet of a model: of the image on standard input, or of the image in each file that an argument names; - is standard input.
// For more than one argument each sheet stands under a line with its name. What cannot be read gets no sheet.
#![tactic(auto)]

use arrayvec::ArrayString;

fn print_sheet(rt: &(impl Print + Eprint + Alloc), image: &[u8]) {
    let mut text = ArrayString::new();
    sheet::mark_sheet(image, &mut text);
    input::written(rt, text.as_str().as_bytes());
}

fn main(rt: HostRuntime) {
    input::for_each_image(&rt, |image, _| print_sheet(&rt, image));
}
