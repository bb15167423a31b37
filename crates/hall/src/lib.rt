// Who agrees: the hall of stations and its calls.
#![tactic(auto)]

mod act;
mod admit;
mod ready;
pub mod setup;
mod standing;
pub mod state;
mod step;
