//! One command for what can be asked of a dump.
#![tactic(auto)]

ghost use Rattle.std.specs.Prelude.{◌≡◌};
ghost use Rattle.std.specs.Process.{exit_status};
ghost use Rattle.lenogneiss.specs.Printed.{status_of};

use anyhow::{Context, anyhow};
use clap::ArgMatches;
use input::STANDARD_INPUT;
use options::{Asked, NAME, SCRIPT, asked_by, command};
use program::STORAGE;
use program::call::{KIT, VERSION, called_with};
use report::told::Finding;
use std::process::ExitCode;

mod input;
mod options;
mod question;
mod script;

/// How many bytes a script has at most.
const LONGEST_SCRIPT: u32 = 1 << 24;

/// The status of a wrong call, of what cannot be read or written, and of a refusal where the status tells it.
const REFUSED: u8 = 2;

/// The status of a race, where it tells that.
const RACE: u8 = 1;

/// The status that tells what an answer finds.
fn status(finding: Finding) -> ExitCode
    ensures { exit_status result ≡ status_of finding }
{
    match finding {
        Finding::Nothing => ExitCode::SUCCESS,
        Finding::Race => ExitCode::from(RACE),
        Finding::Refused => ExitCode::from(REFUSED),
    }
}

/// Answers a question about a dump.
fn answer(rt: &HostRuntime, asked: &Asked<'_>) -> anyhow::Result<ExitCode> {
    let answer = input::answer_about(rt, &asked.question, asked.dump)?;
    rt.print(answer.text)?;
    rt.eprint(answer.note)?;
    Ok(if asked.exit_code {
        status(answer.finding)
    } else {
        ExitCode::SUCCESS
    })
}

/// Performs a script.
fn perform(rt: &HostRuntime, name: &str) -> anyhow::Result<ExitCode> {
    let bytes = input::bytes_of(rt, name, LONGEST_SCRIPT)?;
    let script = String::from_utf8(bytes).map_err(|_| anyhow!("{name} is no text"))?;
    rt.print(script::performed(rt, STORAGE, script.as_str())?)?;
    Ok(ExitCode::SUCCESS)
}

/// Does what the words say.
fn run(rt: &HostRuntime, words: &ArgMatches<'_>) -> anyhow::Result<ExitCode> {
    let (name, words) = words.subcommand().context("a command is missing")?;
    match name {
        "script" => perform(rt, words.get_str(SCRIPT).unwrap_or(STANDARD_INPUT)),
        _ => answer(rt, &asked_by(rt.alloc(), name, words)?),
    }
}

/// Does what the command line says, or prints what is asked of the command itself.
fn called(rt: &HostRuntime) -> anyhow::Result<ExitCode> {
    let heap = rt.alloc();
    let words: Vec<String> = called_with(heap, rt, NAME)?.collect(heap)?;
    let version = format!(in heap; "{VERSION}\nproved with {KIT}")?;
    match command(heap, version.as_str())?.try_get_matches_from(words.as_slice()) {
        Ok(words) => run(rt, &words),
        Err(error) => {
            error.print(rt)?;
            Ok(ExitCode::from(error.exit_code() as u8))
        }
    }
}

fn main(rt: HostRuntime) -> ExitCode {
    match called(&rt) {
        Ok(status) => status,
        Err(error) => {
            let _ = eprintln!(rt; "error: {error:#}");
            ExitCode::from(REFUSED)
        }
    }
}
