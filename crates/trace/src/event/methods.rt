//! What can be asked of events.
ghost use Rattle.std.specs.Prelude.{◌≡◌};
ghost use Rattle.trace.specs.Conflicts.{conflict};

use crate::event::Event;
use crate::kind::Kind;

impl Event {
    /// Whether two threads meet here at one variable, and do not both only read it.
    pub fn conflicts(&self, other: &Event) -> bool
        ensures { result ≡ conflict self.now other.now }
    {
        self.kind.is_access()
            && other.kind.is_access()
            && self.subject == other.subject
            && self.thread != other.thread
            && (self.kind == Kind::Write || other.kind == Kind::Write)
    }
}
