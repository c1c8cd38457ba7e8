// The types of a model: kinds of type, bases and ancestors (also as sets), how near each is, the owners of keys, steps through properties.
#![tactic(auto, unfolding(model_image::specs::Read::model_read, csdl::specs::Model::model_of, csdl::specs::Find::ancestor, csdl::specs::Find::ancestor_or_self, csdl::specs::Find::top, csdl::specs::Find::of_kind, csdl::specs::Find::structured, csdl::specs::Find::complex_step, csdl::specs::Find::contain_step, csdl::specs::Find::integral))]

pub mod ancestors;
pub mod bases;
pub mod hierarchy;
pub mod key_owners;
pub mod kinds;
pub mod nearness;
pub mod steps;
pub mod type_sets;
