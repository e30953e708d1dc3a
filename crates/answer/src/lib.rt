//! What calls answer with: verdicts, refusals, and lists in a caller's buffer.
#![tactic(auto)]

pub mod collector;
pub mod fault;
pub mod verdict;
