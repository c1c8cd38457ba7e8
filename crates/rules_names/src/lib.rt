// Rules 5 to 7 of the model check: identifiers and namespaces, the names of schemas, names that are not repeated.
#![tactic(auto)]

pub mod digests;
pub mod names;
pub mod repeats;
pub mod schemas;
