// The six kinds of path: which records hold one, where it starts, which segments it has.
#![tactic(auto, unfolding(model_image::specs::Read::model_read, csdl::specs::Model::model_of, csdl::specs::Path::path_of, csdl::specs::Path::start_of, csdl::specs::Path::holders))]

pub mod kinds;
