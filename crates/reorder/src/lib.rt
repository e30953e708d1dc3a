//! Which lists of positions reorder a trace.
#![tactic(auto)]

pub mod vet;
