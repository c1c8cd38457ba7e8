// Rules 15 and 16: the paths of keys and of referential constraints.
#![tactic(auto)]

pub mod constraints;
pub mod keys;
