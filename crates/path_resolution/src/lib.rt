// Resolving a path once, for all rules of paths. A cast's type number has 20 bits, so types and codes are u32 here.
#![tactic(auto)]

pub mod bytes;
pub mod codes;
pub mod resolve;
pub mod wide;
