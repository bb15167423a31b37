// What a station counts on before it acts: votes, tags and issued statements; and how it issues its own.
#![tactic(auto)]

pub mod forgery;
pub mod issue;
pub mod tags;
pub mod votes;
