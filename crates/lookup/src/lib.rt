// Finding properties by name: those at a type (`names`), the index of their names (`index`), and the model with both (`model`).
#![tactic(auto, unfolding(model_image::specs::Read::model_read, csdl::specs::Model::model_of))]

mod buckets;
pub mod index;
pub mod model;
pub mod names;
