// The names of a type as a set of properties, found over the classes of names.
#![tactic(auto, unfolding(model_image::specs::Read::model_read, csdl::specs::Model::model_of))]

pub mod members;
pub mod wide;
