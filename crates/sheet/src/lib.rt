// The sheet of an image: the text that `mark` prints, of which `explain` prints the first line.
#![tactic(auto)]

ghost use Rattle.std.specs.Prelude.{◌≡◌, ◌+◌, ◌++◌, ◌≤◌, IfOk, length};
ghost use Rattle.arrayvec.specs.ArrayString.{array_string_len};
ghost use Rattle.csdl.specs.Verdict.{model_means, model_buffer};
ghost use Rattle.sheet.specs.Sheet.{mark_of, first_line, first_text, mark_text};

use arrayvec::ArrayString;
use csdl::Refusal;
use model_image::model::Model;
use sheet_lines::{accepted_line, refused_line, segment_lines};

// Two bytes for each of the 1,024 segments that an image has at most, so that rule 2 is never broken.
pub const RESOLUTION_SIZE: usize = 2048;

// The longest first line has 26 bytes.
pub const LINE_SIZE: usize = 26;

// The longest sheet: 15 bytes for `accepted` with a number, and 21 for each segment.
pub const SHEET_SIZE: usize = 21519;

// The answer of the check, and the line that says it.
#[derive(Clone, Copy)]
pub struct Marked {
    pub answer: Result<u16, Refusal>,
    pub line: ArrayString<LINE_SIZE>,
}

fn check(image: &[u8], resolution: &mut [u8]) -> Result<u16, Refusal>
    requires { 2048 ≤ length resolution.old }
    ensures result_value { model_means result ≡ mark_of image.now }
    ensures resolution_after { resolution.new ≡ model_buffer image.now resolution.old }
{
    model_check::check_model(image, resolution)
}

// Puts the line that says the answer at the end of the text.
#[tactic(auto, unfolding(crate::specs::Sheet::first_line, csdl::specs::Verdict::model_means))]
fn answer_line<const N: usize>(text: &mut ArrayString<N>, answer: Result<u16, Refusal>)
    requires { array_string_len text.old + 26 ≤ N }
    ensures after { text.new.bytes ≡ text.old.bytes ++ first_line (model_means answer) }
    ensures bound { IfOk answer (λ _. array_string_len text.new ≤ array_string_len text.old + 15) }
{
    match answer {
        Ok(segments) => accepted_line(text, segments),
        Err(refusal) => refused_line(text, refusal.rule, refusal.place),
    }
}

// The first line of the sheet. What the segments resolve to goes into `resolution`.
pub fn first_line(image: &[u8], resolution: &mut [u8; RESOLUTION_SIZE]) -> Marked
    ensures answer_value { model_means result.answer ≡ mark_of image.now }
    ensures line_value { result.line.bytes ≡ first_text image.now }
    ensures resolution_after { resolution.new ≡ model_buffer image.now resolution.old }
{
    let answer = check(image, resolution);
    let mut line = ArrayString::new();
    answer_line(&mut line, answer);
    Marked { answer, line }
}

// Puts the sheet into the text, in place of what is there.
pub fn mark_sheet(image: &[u8], text: &mut ArrayString<SHEET_SIZE>)
    ensures { text.new.bytes ≡ mark_text image.now }
{
    let mut resolution = [0u8; RESOLUTION_SIZE];
    let answer = check(image, &mut resolution);
    text.clear();
    answer_line(text, answer);
    if let Ok(segments) = answer {
        let first = Model::read(image).segments_at();
        segment_lines(text, &resolution, first, segments);
    }
}
