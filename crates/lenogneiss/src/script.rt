//! Reads a script: one call a line, words separated by blanks. Empty lines and comments, whose first word begins with `#`, are skipped.
use crate::input::bytes_of;
use answer::verdict::RacePair;
use anyhow::{Context, anyhow, bail, ensure};
use program::ROOM;
use reel::MOST_EVENTS;
use replies::told_in;
use run::Call;
use std::alloc::Global;
use std::str::SplitWhitespace;
use trace::record::RECORD;

/// The base of the bytes in a script.
const HEXADECIMAL: u32 = 16;

/// How many pairs there are of as many events as there is room for.
const PAIRS: usize = ROOM * (ROOM - 1) / 2;

/// How many bytes a dump has at most that `load` reads from a file: the records of as many events as any reel has room for.
const LONGEST_DUMP: u32 = (RECORD * MOST_EVENTS) as u32;

/// What a buffer of pairs is filled with before the call.
const NO_PAIR: RacePair = RacePair {
    first: 0,
    second: 0,
};

/// The arguments of a call: the words of its line that are still to be read.
#[derive(Drop)]
struct Arguments<'a> {
    rt: &'a HostRuntime,
    words: SplitWhitespace<'a>,
}

/// The byte that a word is.
fn byte(word: &str) -> anyhow::Result<u8> {
    u8::from_str_radix(word, HEXADECIMAL).map_err(|error| anyhow!("'{word}' is no byte: {error}"))
}

impl Arguments<'_> {
    /// The bytes that all of them stand for.
    fn bytes(self) -> anyhow::Result<Vec<u8>> {
        self.words.map(byte).try_collect(self.rt.alloc())
    }

    /// The bytes of the file that is named behind `@`, or those that the words stand for.
    fn dump(mut self) -> anyhow::Result<Vec<u8>> {
        let rt = self.rt;
        match self
            .words
            .clone()?
            .next()
            .and_then(|word| word.strip_prefix('@'))
        {
            None => self.bytes(),
            Some(path) => {
                let _ = self.words.next();
                self.no_more()?;
                bytes_of(rt, path, LONGEST_DUMP)
            }
        }
    }

    /// There are no more.
    fn no_more(mut self) -> anyhow::Result<()> {
        match self.words.next() {
            None => Ok(()),
            Some(word) => Err(anyhow!("there is a word too many, '{word}'")),
        }
    }

    /// The next one, which is a number.
    fn number(&mut self) -> anyhow::Result<usize> {
        let word = self.words.next().context("a number is missing")?;
        word.parse()
            .map_err(|error| anyhow!("'{word}' is no number: {error}"))
    }

    /// The last one, which is a number.
    fn last_number(mut self) -> anyhow::Result<usize> {
        let last = self.number()?;
        self.no_more()?;
        Ok(last)
    }

    /// A buffer with as many entries as the last one says, each like the given one, and `most` at most, since no answer needs more.
    fn buffer<T: Copy>(self, entry: T, most: usize) -> anyhow::Result<Vec<T>> {
        let heap = self.rt.alloc();
        let places = self.last_number()?;
        ensure!(
            places <= most,
            "a buffer of {places} places is refused, since {most} are enough for every answer"
        );
        Ok(vec![in heap; entry; places]?)
    }
}

/// The call with this name, still to be performed.
fn call(name: &str, mut arguments: Arguments<'_>) -> anyhow::Result<Call> {
    Ok(match name {
        "enter" => Call::Enter {
            bytes: arguments.bytes()?,
            answer: None,
        },
        "load" => Call::Load {
            bytes: arguments.dump()?,
            answer: None,
        },
        "judge" => Call::Judge {
            p: arguments.number()?,
            q: arguments.last_number()?,
            answer: None,
        },
        "witness" => Call::Witness {
            p: arguments.number()?,
            q: arguments.number()?,
            buffer: arguments.buffer(0u16, MOST_EVENTS)?,
            answer: None,
        },
        "partners" => Call::Partners {
            q: arguments.number()?,
            buffer: arguments.buffer(0u16, MOST_EVENTS)?,
            answer: None,
        },
        "sweep" => Call::Sweep {
            buffer: arguments.buffer(NO_PAIR, PAIRS)?,
            answer: None,
        },
        _ => bail!("there is no call '{name}'"),
    })
}

/// The call of a line, if it has one.
fn call_of(rt: &HostRuntime, line: &str) -> anyhow::Result<Option<Call>> {
    let mut words = line.split_whitespace();
    match words.next() {
        Some(name) if !name.starts_with('#') => Ok(Some(call(name, Arguments { rt, words })?)),
        _ => Ok(None),
    }
}

/// The lines of a script that have calls, and the calls. A line that is no call is named in the error.
fn calls<'a>(rt: &HostRuntime, script: &'a str) -> anyhow::Result<(Vec<&'a str>, Vec<Call>)> {
    let mut lines = Vec::new(rt.alloc());
    let mut calls = Vec::new(rt.alloc());
    for (index, line) in script.lines().enumerate() {
        let call = call_of(rt, line).with_context(|| format!(in rt.alloc(); "line {}", index + 1))?;
        if let Some(call) = call {
            lines.push(line.trim())?;
            calls.push(call)?;
        }
    }
    Ok((lines, calls))
}

/// Performs the calls of a script as one run: the words of each call, and its reply in the line below.
pub(crate) fn performed(rt: &HostRuntime, size: usize, script: &str) -> anyhow::Result<String> {
    let heap = rt.alloc();
    let (lines, calls) = calls(rt, script)?;
    Ok(told_in(heap, size, lines.as_slice(), calls)?)
}
