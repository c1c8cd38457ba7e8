// Rules 8 to 10: what a type and a property may be.
#![tactic(auto, unfolding(model_image::specs::Read::model_read, csdl::specs::Model::model_of, csdl::specs::Find::of_kind, csdl::specs::Find::structured, csdl::specs::Types::type9, csdl::specs::Properties::is_stream))]

pub mod properties;
pub mod types;
