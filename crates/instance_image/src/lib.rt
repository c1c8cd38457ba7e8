// The instance image: its form (`image`); its tables as parts of it (`tables`); the instance in it (`instance`, `read`), with one method
// a field of each table (`fields`).
#![tactic(auto, unfolding(crate::specs::Read::instance_read, csdl::specs::Instance::instance_of))]

pub mod fields;
pub mod image;
pub mod instance;
pub mod read;
pub mod tables;
