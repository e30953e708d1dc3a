//! A line of positions.
ghost use Rattle.std.specs.Prelude.{Some};
ghost use Rattle.std.specs.List.{flat_map};
ghost use Rattle.report.specs.Witnesses.{position_entry, positions_line};

use std::fmt;

/// Positions, each after a blank.
#[derive(Clone, Copy)]
struct Positions<'a>(&'a [u16]);

impl fmt::Display for Positions<'_> {
    ghost output = { λ l. Some (flat_map position_entry l.0.now) };

    fn fmt<W: fmt::Write>(&self, f: &mut fmt::Formatter<W>) -> fmt::Result {
        for position in self.0 {
            write!(f, " {position}")?;
        }
        Ok(())
    }
}

/// The line of some positions.
#[derive(Clone, Copy)]
pub(super) struct PositionsLine<'a>(pub(super) &'a [u16]);

impl fmt::Display for PositionsLine<'_> {
    ghost output = { λ l. Some (positions_line l.0.now) };

    fn fmt<W: fmt::Write>(&self, f: &mut fmt::Formatter<W>) -> fmt::Result {
        let positions = Positions(self.0);
        writeln!(f, "positions{positions}")
    }
}
