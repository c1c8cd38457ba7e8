// Rules 13 and 14, of segments. Rule 14 keeps the codes of what the segments resolve to.
#![tactic(auto)]

pub mod cover;
pub mod unresolved;
