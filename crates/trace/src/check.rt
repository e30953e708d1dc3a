//! The trace check, with what it keeps.
use crate::locks::LockTable;
use crate::threads::ThreadTable;

mod methods;

/// What the trace check keeps: who holds each lock, and what is known of each thread.
#[derive(Clone, Copy)]
pub struct TraceCheck {
    locks: LockTable,
    threads: ThreadTable,
}
