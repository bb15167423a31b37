// What stations send each other: lines, frames and the slots of a pool.
#![tactic(auto)]

pub mod bytes;
pub mod decode;
pub mod encode;
pub mod frame;
pub mod line;
pub mod pool;
mod show;
pub mod slot;
#[cfg(test)]
mod tests;
