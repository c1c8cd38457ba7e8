// Rule 12: no type reaches itself by required steps.
#![tactic(auto, unfolding(model_image::specs::Read::model_read, csdl::specs::Model::model_of, csdl::specs::Properties::required))]

mod cycles;
pub mod required;
