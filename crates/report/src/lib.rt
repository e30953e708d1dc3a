//! The texts that the programs print.
#![tactic(auto)]

pub mod listing;
pub mod questions;
pub mod races;
mod refusals;
pub mod theorems;
pub mod told;
