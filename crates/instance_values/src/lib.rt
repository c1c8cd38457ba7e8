// Rules 22 to 25 of an instance: its records against the model.
#![tactic(auto, unfolding(csdl::specs::Conforms::node22, csdl::specs::Conforms::is_null, csdl::specs::Conforms::carries_node, csdl::specs::Conforms::item25of, csdl::specs::Conforms::item25))]

pub mod rules;
pub mod slots;
