//! What is printed.
use crate::drawn::Manner;
use crate::plan::{Choice, Plan};
use crate::steps::{Step, Trace};
use crate::tally::Tally;
use std::fmt;
use trace::kind::Kind;

/// How traces are drawn.
impl fmt::Display for Manner {
    fn fmt<W: fmt::Write>(&self, f: &mut fmt::Formatter<W>) -> fmt::Result {
        let least = self.least;
        let most = self.most();
        write!(
            f,
            "of {least} to {most} events, {} in 8 accesses",
            self.accesses
        )
    }
}

/// Which traces are tried.
impl fmt::Display for Choice {
    fn fmt<W: fmt::Write>(&self, f: &mut fmt::Formatter<W>) -> fmt::Result {
        match self {
            Choice::All { most } => write!(f, "all of 1 to {most} events"),
            Choice::Drawn { manner, .. } => write!(f, "drawn, {manner}"),
        }
    }
}

/// Which traces the plan tries.
impl fmt::Display for Plan {
    fn fmt<W: fmt::Write>(&self, f: &mut fmt::Formatter<W>) -> fmt::Result {
        write!(
            f,
            "{}, threads {}, variables {}, locks {}",
            self.choice, self.shape.threads, self.shape.variables, self.shape.locks
        )?;
        if self.shape.spawns {
            f.write_str(", with spawns and joins")?;
        }
        Ok(())
    }
}

/// The numbers of the tally.
impl fmt::Display for Tally {
    fn fmt<W: fmt::Write>(&self, f: &mut fmt::Formatter<W>) -> fmt::Result {
        write!(
            f,
            "traces {}, inner {}, spawns and joins {}, pairs {}, races {}, reorderings {}, answers {}, differences {}",
            self.traces,
            self.inner,
            self.spawns,
            self.pairs,
            self.races,
            self.reorderings,
            self.answers,
            self.differences
        )
    }
}

/// The letter of a kind.
fn letter_of(kind: Kind) -> char {
    match kind {
        Kind::Read => 'r',
        Kind::Write => 'w',
        Kind::Acquire => 'a',
        Kind::Release => 'z',
        Kind::Spawn => 's',
        Kind::Join => 'j',
    }
}

/// The event: thread, letter, subject.
impl fmt::Display for Step {
    fn fmt<W: fmt::Write>(&self, f: &mut fmt::Formatter<W>) -> fmt::Result {
        let letter = letter_of(self.event.kind);
        write!(f, "{}{letter}{}", self.event.thread, self.event.subject)
    }
}

/// The events, each after a blank.
impl fmt::Display for Trace {
    fn fmt<W: fmt::Write>(&self, f: &mut fmt::Formatter<W>) -> fmt::Result {
        for step in self.steps() {
            write!(f, " {step}")?;
        }
        Ok(())
    }
}
