// Rules 3 and 4 of a record: spare bits (`spare`); numbers below their counts, names and paths within their tables (`numbers`).
#![tactic(auto)]

pub mod numbers;
pub mod spare;
