//! Compares the answers of sessions with a search through every reordering, on all small traces of some shapes and on larger ones that a
//! fixed generator draws; prints what was tried, and how many answers differ.
#![tactic(auto)]

use plan::{Choice, Plan};
use program::call::Program;
use std::process::ExitCode;
use tally::Tally;

mod all;
mod check;
mod compare;
mod drawn;
mod plan;
mod relations;
mod search;
mod shape;
mod steps;
mod tally;
mod text;

const EXHAUSTIVE: Program = Program {
    name: "exhaustive",
    usage: "exhaustive",
    prints: "Compares the answers of sessions with a search through every reordering of many small traces,\nand prints what was tried. Ends with 1 where answers differ.",
    most_words: 0,
};

/// Carries out every plan, prints of each what was tried, and adds it all.
fn carry_out_all(rt: &HostRuntime) -> anyhow::Result<Tally> {
    let plans = [
        Plan::of(Choice::All { most: 7 }, 2, 1, 1),
        Plan::of(Choice::All { most: 5 }, 2, 1, 2),
        Plan::of(Choice::All { most: 5 }, 2, 2, 1),
        Plan::of(Choice::All { most: 5 }, 3, 1, 1),
        Plan::of(Choice::All { most: 5 }, 3, 2, 1),
        Plan::of(Choice::All { most: 5 }, 3, 1, 1).spawning(),
        Plan::of(Choice::drawn(3000, 8, 5), 3, 2, 2),
        Plan::of(Choice::drawn(500, 8, 5), 4, 3, 2),
        Plan::of(Choice::drawn(1000, 10, 3), 3, 1, 1),
        Plan::of(Choice::drawn(1000, 12, 4), 2, 1, 2),
        Plan::of(Choice::drawn(3000, 8, 4), 3, 1, 1).spawning(),
        Plan::of(Choice::drawn(2000, 10, 3), 3, 1, 2).spawning(),
        Plan::of(Choice::drawn(200, 10, 4), 4, 2, 1).spawning(),
    ];
    let mut total = Tally::default();
    for plan in &plans {
        let tally = plan.carry_out(rt.alloc())?;
        println!(rt; "{plan}: {tally}")?;
        total += tally;
    }
    Ok(total)
}

/// Carries out all, and shows whether answers differ.
fn show(rt: &HostRuntime) -> anyhow::Result<ExitCode> {
    if EXHAUSTIVE.words(rt)?.is_none() {
        return Ok(ExitCode::SUCCESS);
    }
    let total = carry_out_all(rt)?;
    println!(rt; "in all: {total}")?;
    match total.differs {
        None => Ok(ExitCode::SUCCESS),
        Some(trace) => {
            println!(rt; "the first trace on which answers differ:{trace}")?;
            let _ = eprintln!(rt; "Error: answers differ");
            Ok(ExitCode::FAILURE)
        }
    }
}

fn main(rt: HostRuntime) -> ExitCode {
    let done = show(&rt);
    EXHAUSTIVE.status(&rt, done)
}
