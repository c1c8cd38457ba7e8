// Rule 21 of an instance: the form of its records, and in which runs each stands.
#![tactic(auto)]

pub mod form;
pub mod runs;
