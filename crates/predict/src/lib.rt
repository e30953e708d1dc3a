//! Which events a cut of a trace wants, and the closures of events under such rules.
#![tactic(auto)]

pub mod closure;
pub mod cut;
mod locks;
pub mod lookup;
mod reads;
pub mod rule;
pub mod rules;
pub mod theorems;
mod threads;
