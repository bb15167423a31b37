// Who works a batch out: the table of stations, and the policies that seat committees of them.
#![tactic(auto)]

pub mod any;
pub mod full;
pub mod policy;
pub mod rotating;
pub mod table;
