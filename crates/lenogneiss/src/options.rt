//! The command line: which words there are, and what they ask for.
use crate::input::STANDARD_INPUT;
use crate::question::Question;
use anyhow::{Context, anyhow, bail};
use clap::{Arg, ArgAction, ArgMatches, Command};
use std::alloc::{AllocError, Global};

/// The name of the command.
pub(crate) const NAME: &str = "lenogneiss";

const DUMP: &str = "DUMP";

const EXIT_CODE: &str = "exit-code";

const P: &str = "P";

const Q: &str = "Q";

const POSITIONS: &str = "POSITION";

pub(crate) const SCRIPT: &str = "SCRIPT";

const ABOUT: &str = "Says which accesses of a trace race, from a dump: eight bytes an event.";

const NOTES: &str = "\
DUMP is a file; without one, or with -, it is the standard input. Positions
count from 0. A refusal is an answer: its number, and why. The words of one
command: lenogneiss COMMAND --help.

Status: 0 answered; 2 a wrong call, or what cannot be read or written; with
--exit-code also 1 for a race, 2 for a refused dump or question.";

/// A dump that is read, as the last word.
fn dump<'a>(heap: Global) -> Arg<'a> {
    Arg::new(heap, DUMP).help("A dump: a file, or - for the standard input")
}

/// Whether the status tells what the answer finds.
fn exit_code<'a>(heap: Global) -> Arg<'a> {
    Arg::new(heap, EXIT_CODE)
        .long(EXIT_CODE)
        .action(ArgAction::SetTrue)
        .help("Status 1 for a race, 2 for a refusal")
}

/// A position that has to be given.
fn position<'a>(heap: Global, name: &'a str, help: &'a str) -> Arg<'a> {
    Arg::new(heap, name)
        .required(true)
        .allow_negative_numbers(true)
        .help(help)
}

/// The position of the earlier event.
fn earlier<'a>(heap: Global) -> Arg<'a> {
    position(heap, P, "The position of the earlier event")
}

/// The position of the later event.
fn later<'a>(heap: Global) -> Arg<'a> {
    position(heap, Q, "The position of the later event")
}

/// A command that is asked about a dump.
fn question<'a>(heap: Global, name: &'a str, about: &'a str) -> Result<Command<'a>, AllocError> {
    Command::new(heap, name).about(about).arg(exit_code(heap))
}

/// The command that asks about orders: the list of positions has no end, so the dump is told by an option.
fn ask<'a>(heap: Global) -> Result<Command<'a>, AllocError> {
    let list = Arg::new(heap, POSITIONS)
        .num_args(0..)
        .allow_negative_numbers(true)
        .help("The list that Vet is asked about");
    let dump = Arg::new(heap, DUMP)
        .long("dump")
        .short('d')
        .value_name(DUMP)
        .help("A dump: a file, or - for the standard input");
    question(
        heap,
        "ask",
        "Answers Unordered, Schedulable and Vet about two events",
    )?
    .arg(dump)?
    .arg(earlier(heap))?
    .arg(later(heap))?
    .arg(list)
}

/// The command that performs a script.
fn script<'a>(heap: Global) -> Result<Command<'a>, AllocError> {
    Command::new(heap, "script")
        .about("Performs a script of calls, and prints each reply after its call")
        .arg(Arg::new(heap, SCRIPT).help("A script: a file, or - for the standard input"))
}

/// The commands that are asked about all events.
fn report<'a>(heap: Global) -> Result<Command<'a>, AllocError> {
    let about = "Prints the race report: a line for each racing pair";
    question(heap, "report", about)?.arg(dump(heap))
}

fn list<'a>(heap: Global) -> Result<Command<'a>, AllocError> {
    let about = "Prints the events, a line each";
    question(heap, "list", about)?.arg(dump(heap))
}

/// A command that is asked about a later event.
fn about_later<'a>(command: Command<'a>, heap: Global) -> Result<Command<'a>, AllocError> {
    command.arg(later(heap))?.arg(dump(heap))
}

fn partners<'a>(heap: Global) -> Result<Command<'a>, AllocError> {
    let about = "Prints the earlier events that race with one";
    about_later(question(heap, "partners", about)?, heap)
}

/// The commands that are asked about an earlier event too.
fn judge<'a>(heap: Global) -> Result<Command<'a>, AllocError> {
    let about = "Says whether two events race";
    let command = question(heap, "judge", about)?.arg(earlier(heap))?;
    about_later(command, heap)
}

fn witness<'a>(heap: Global) -> Result<Command<'a>, AllocError> {
    let about = "Shows how far to run each thread until two racing events come next";
    let command = question(heap, "witness", about)?.arg(earlier(heap))?;
    about_later(command, heap)
}

/// The command line without its commands.
fn top<'a>(heap: Global, version: &'a str) -> Command<'a> {
    Command::new(heap, NAME)
        .version(version)
        .about(ABOUT)
        .after_help(NOTES)
        .subcommand_required(true)
        .arg_required_else_help(true)
        .disable_help_subcommand(true)
}

/// What the command line may hold.
pub(crate) fn command<'a>(heap: Global, version: &'a str) -> Result<Command<'a>, AllocError> {
    top(heap, version)
        .subcommand(report(heap)?)?
        .subcommand(list(heap)?)?
        .subcommand(judge(heap)?)?
        .subcommand(witness(heap)?)?
        .subcommand(partners(heap)?)?
        .subcommand(ask(heap)?)?
        .subcommand(script(heap)?)
}

/// The position that a word is.
fn position_of(name: &str, word: Option<&str>) -> anyhow::Result<usize> {
    let word = word.with_context(|| "a position is missing")?;
    word.parse().map_err(|_| anyhow!(
        "{name} is '{word}', and a position is wanted: a number from 0 on"
    ))
}

/// The positions that words are.
fn positions_of(heap: Global, words: Option<&[&str]>) -> anyhow::Result<Vec<u16>> {
    words
        .unwrap_or(&[])
        .iter()
        .map(|word| -> anyhow::Result<u16> {
            word.parse().map_err(|_| {
                anyhow!("POSITION is '{word}', and a position is wanted: a number from 0 to 65535")
            })
        })
        .try_collect(heap)
}

/// A question about a dump, and how the answer is to be given.
#[derive(Drop)]
pub(crate) struct Asked<'a> {
    pub(crate) question: Question,
    pub(crate) dump: &'a str,
    pub(crate) exit_code: bool,
}

/// What a command asks for.
pub(crate) fn asked_by<'a>(
    heap: Global,
    name: &str,
    words: &ArgMatches<'a>,
) -> anyhow::Result<Asked<'a>> {
    let p = || position_of(P, words.get_str(P));
    let q = || position_of(Q, words.get_str(Q));
    let question = match name {
        "report" => Question::Report,
        "list" => Question::List,
        "judge" => Question::Judge(p()?, q()?),
        "witness" => Question::Witness(p()?, q()?),
        "partners" => Question::Partners(q()?),
        "ask" => Question::Ask(p()?, q()?, positions_of(heap, words.get_strs(POSITIONS))?),
        _ => bail!("there is no command {name}"),
    };
    Ok(Asked {
        question,
        dump: words.get_str(DUMP).unwrap_or(STANDARD_INPUT),
        exit_code: words.get_flag(EXIT_CODE),
    })
}
