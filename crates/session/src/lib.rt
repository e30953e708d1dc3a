//! A session over a reel: records go in one after another, and what they hold can be asked for.
#![tactic(auto)]

pub mod length;
pub mod records;
pub mod session;
#[cfg(test)]
mod tests;
pub mod theorems;
