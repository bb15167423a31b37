// How stations agree on one book: the record that a station keeps, and the law over every list of calls.
#![tactic(auto)]

pub mod law;
pub mod station;
