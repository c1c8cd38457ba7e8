// The properties by name: an order of byte strings, and for each property the first that has its name.
#![tactic(auto, unfolding(model_image::specs::Read::model_read, csdl::specs::Model::model_of))]

pub mod first_properties;
pub mod order;
