// Plain data that every layer shares: refusals, batches and entries.
#![tactic(auto)]

pub mod book;
pub mod fault;
pub mod refusal;
mod show;
