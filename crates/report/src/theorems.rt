//! The theorem on how much of an input decides. The contract of the function is the theorem, so the crate is proved only with its proof;
//! the function does nothing.

ghost use Rattle.report.specs.Deciding.{Deciding};

/// Where a session enters the records of an input, as many as it has room for and one more decide what it comes to.
pub fn deciding()
    ensures { Deciding }
{}
