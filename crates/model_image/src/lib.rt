// The model image: its header and rule 1 (`image`); the model in it (`model`, `read`), with one method a field of each table, by the number of the
// record; names and paths as fields (`fields`); the names of records as parts of the name bytes (`texts`); the places of records (`places`).
#![tactic(auto, unfolding(crate::specs::Read::model_read, csdl::specs::Model::model_of))]

pub mod bindings;
pub mod children;
pub mod constraints;
pub mod fields;
pub mod image;
pub mod keys;
pub mod model;
pub mod places;
pub mod properties;
pub mod read;
pub mod schemas;
pub mod segments;
pub mod texts;
pub mod types;
