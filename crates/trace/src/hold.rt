//! How a thread holds a lock.

mod methods;

/// The thread that holds a lock, and how deep: it acquired the lock so many times and did not release it again.
#[derive(Clone, Copy, PartialEq, Eq, Debug)]
pub struct Hold {
    pub thread: u8,
    pub depth: u8,
}
