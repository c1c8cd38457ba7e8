// Rules 17 to 19: partners, containment and the children of the entity container, bindings.
#![tactic(auto)]

pub mod bindings;
pub mod children;
mod classes;
mod forms;
pub mod partners;
