// What a batch gives: checked batches, the interface of a rule, two rules, and the lone clerk.
#![tactic(auto)]

pub mod any;
pub mod batch;
pub mod check;
pub mod clerk;
pub mod levy;
pub mod oil;
pub mod rule;
