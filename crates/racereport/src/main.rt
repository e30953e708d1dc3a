//! Prints the race report of a dump from standard input, or the first record that is refused.
#![tactic(auto)]

ghost use Rattle.reel.specs.Stored.{room_for};
ghost use Rattle.report.specs.Reports.{ReportOf};
ghost use Rattle.report.proofs.Deciding.{report_decided};

use program::call::Program;
use program::{DumpText, InputText, print_dump_text};
use report::told::races::told_report;
use std::alloc::Global;
use std::io;
use std::process::ExitCode;

const RACEREPORT: Program = Program {
    name: "racereport",
    usage: "racereport < DUMP",
    prints: "Prints the race report of a dump: the number of its events, a line for each racing\npair, and how many these are; or the first record that is refused.",
    most_words: 0,
};

/// The race report.
struct RaceReport {}

impl InputText for RaceReport {
    ghost Makes = { λ _ size dump s. ReportOf (room_for size) dump s };

    fn text(&self, heap: Global, size: usize, dump: &[u8]) -> anyhow::Result<String> {
        Ok(told_report(heap, size, dump)?.told.text)
    }
}

impl DumpText for RaceReport {
    ghost decided = { λ _. report_decided };
}

/// Prints the report.
fn report(rt: &HostRuntime) -> anyhow::Result<ExitCode> {
    if RACEREPORT.words(rt)?.is_some() {
        let mut output = io::writer(rt);
        print_dump_text(rt.alloc(), &mut rt.stdin(), &mut output, &RaceReport {})?;
    }
    Ok(ExitCode::SUCCESS)
}

fn main(rt: HostRuntime) -> ExitCode {
    let done = report(&rt);
    RACEREPORT.status(&rt, done)
}
