//! Traces of events: the events, their records, who holds which lock, and the theory of reorderings.
#![tactic(auto)]

pub mod check;
pub mod event;
pub mod fault;
pub mod hold;
pub mod kind;
pub mod life;
pub mod limits;
pub mod locks;
pub mod record;
#[cfg(test)]
mod tests;
pub mod theorems;
pub mod threads;
