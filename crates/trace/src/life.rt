//! What is known of a thread.

/// What the trace check knows of a thread.
#[derive(Clone, Copy, PartialEq, Eq, Debug)]
pub struct Life {
    /// It has an event.
    pub begun: bool,
    /// A spawn or a join named it.
    pub named: bool,
    /// A join named it.
    pub joined: bool,
}
