// What a model's mark means, in words: under the first line of its sheet for a refusal the faulty record, the rule and the section of the
// standard; for an accepted model its paths and what their segments resolve to.
use crate::description::Subject;
use crate::print::{Output, text};
use crate::{listing, refusal, rulebook};
use csdl::Refusal;
use model_image::image::bad_image;
use model_image::model::Model;

// Explains the mark of an image. Any bytes may be given.
pub fn explain(rt: &impl Output, image: &[u8]) {
    let mut resolution = [0u8; sheet::RESOLUTION_SIZE];
    let marked = sheet::first_line(image, &mut resolution);
    if input::written(rt, marked.line.as_str().as_bytes()) {
        explain_answer(rt, image, &resolution, marked.answer);
    }
}

// What stands under the first line.
fn explain_answer(
    rt: &impl Output,
    image: &[u8],
    resolution: &[u8; sheet::RESOLUTION_SIZE],
    answer: Result<u16, Refusal>,
) {
    if bad_image(image) {
        text(rt, b"record   none, the image as a whole\n");
        rulebook::explain(rt, 1);
        return;
    }
    let model = Model::read(image);
    let of = Subject {
        image,
        model,
        places: model.places(),
        names: model.names,
    };
    match answer {
        Ok(_) => listing::paths(rt, &of, resolution),
        Err(refusal) => refusal::explain(rt, &of, refusal),
    }
}
