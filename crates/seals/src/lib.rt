// Who said it: the interfaces of a seal, two seals, and their choice.
#![tactic(auto)]

pub mod any;
pub mod keyed;
pub mod seal;
pub mod sheet;
