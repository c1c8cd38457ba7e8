// Explains the mark of a model: of the image on standard input, or of the image in each file that an argument names; - is standard input.
// For more than one argument each explanation stands under a line with its name. What cannot be read gets none.
#![tactic(auto)]

mod description;
mod explanation;
mod listing;
mod paths;
mod print;
mod refusal;
mod rulebook;

use explanation::explain;
use print::Output;

// An explanation, and below it an empty line if there are several.
fn show(rt: &impl Output, image: &[u8], several: bool) {
    explain(rt, image);
    if several {
        print::line_end(rt);
    }
}

fn main(rt: HostRuntime) {
    input::for_each_image(&rt, |image, several| show(&rt, image, several));
}
