//! How the programs are called, and the status that each ends with.
ghost use Rattle.std.specs.Prelude.{◌≡◌, ◌≤◌, ◌++◌, IfOk, IfSome, MatchResult, Some, codes, vec_len};
ghost use Rattle.std.specs.Process.{exit_status};
ghost use Rattle.anyhow.specs.Error.{HasMessage, AddsCause, error_message};
ghost use Rattle.anyhow.specs.declared.error.Error.{Error};
ghost use Rattle.program.specs.Statuses.{not_done};

use anyhow::anyhow;
use std::alloc::Global;
use std::env::{Args, Env, FillError};
use std::process::ExitCode;
use std::{env, fmt, io, str};

/// The version of all programs.
pub const VERSION: &str = "0.1.0";

/// What they are proved with.
pub const KIT: &str = "rattle-kit-13f logic dac8208d650f15bf";

/// The status of a wrong call, and of what cannot be read or written.
const NOT_DONE: u8 = 2;

/// The environment of a program, with its own name in the place of one that is no text.
#[derive(Drop)]
struct Named<'a, R> {
    rt: &'a R,
    name: &'static str,
}

impl<R: Env> Env for Named<'_, R> {
    fn arg(&self, index: usize, buffer: &mut [u8]) -> Result<usize, FillError> {
        let length = self.rt.arg(index, buffer)?;
        if index > 0 || str::from_utf8(&buffer[..length]).is_ok() {
            return Ok(length);
        }
        let name = self.name.as_bytes();
        buffer
            .get_mut(..name.len())
            .ok_or(FillError::TooLong)?
            .copy_from_slice(name);
        Ok(name.len())
    }

    fn var(&self, name: &str, buffer: &mut [u8]) -> Result<usize, FillError> {
        self.rt.var(name, buffer)
    }

    fn var_at(&self, index: usize, buffer: &mut [u8]) -> Result<usize, FillError> {
        self.rt.var_at(index, buffer)
    }
}

/// The words that a program is called with; the first is the name that it is called by, or its own where that is no text.
pub fn called_with<R: Env>(heap: Global, rt: &R, name: &'static str) -> io::Result<Args> {
    env::args(&(Named { rt, name }, heap))
}

/// A program, as it tells of itself.
#[derive(Clone, Copy)]
pub struct Program {
    pub name: &'static str,
    /// How it is called.
    pub usage: &'static str,
    /// What it prints.
    pub prints: &'static str,
    /// How many words it takes at most.
    pub most_words: usize,
}

impl Program {
    /// The error, and behind it how the program is called.
    pub fn wrong_call(&self, error: anyhow::Error) -> anyhow::Error
        ensures message { HasMessage (Some (error_message error)) result }
        ensures usage { (told : Error) × HasMessage (Some (codes "usage: " ++ self.now.usage.now)) told × AddsCause told result }
    {
        let usage = self.usage;
        anyhow!("usage: {usage}").context(error)
    }

    /// The words that the program is called with; `None` if they ask what it is, which is then printed.
    pub fn words(&self, rt: &HostRuntime) -> anyhow::Result<Option<Vec<String>>>
        ensures { IfOk result (λ asked. IfSome asked (λ words. vec_len words ≤ self.now.most_words)) }
    {
        let words: Vec<String> = called_with(rt.alloc(), rt, self.name)?
            .skip(1)
            .collect(rt.alloc())?;
        if let [word] = words.as_slice() {
            match word.as_str() {
                "--help" => {
                    println!(rt; "{self}")?;
                    return Ok(None);
                }
                "--version" => {
                    let name = self.name;
                    println!(rt; "{name} {VERSION}\nproved with {KIT}")?;
                    return Ok(None);
                }
                _ => {}
            }
        }
        match words.get(self.most_words) {
            Some(word) => Err(self.wrong_call(anyhow!("it takes no argument '{word}'"))),
            None => Ok(Some(words)),
        }
    }

    /// The status to end with: that of what was done, or 2 with the error told on standard error.
    pub fn status(&self, rt: &HostRuntime, done: anyhow::Result<ExitCode>) -> ExitCode
        ensures { MatchResult done (λ status. result ≡ status) (λ _. exit_status result ≡ not_done) }
    {
        match done {
            Ok(status) => status,
            Err(error) => {
                let name = self.name;
                let _ = eprintln!(rt; "{name}: {error:#}");
                ExitCode::from(NOT_DONE)
            }
        }
    }
}

impl fmt::Display for Program {
    fn fmt<W: fmt::Write>(&self, f: &mut fmt::Formatter<W>) -> fmt::Result {
        let usage = self.usage;
        let prints = self.prints;
        write!(
            f,
            "usage: {usage}\n\n{prints}\n\n  --help     prints this\n  --version  prints the version, and what it is proved with"
        )
    }
}

#[cfg(test)]
mod tests {
    use super::called_with;
    use std::env::{Env, FillError};
    use std::test::Fail;

    /// Is called by a name that is no text, with one word.
    struct Unnamed {}

    impl Env for Unnamed {
        fn arg(&self, index: usize, buffer: &mut [u8]) -> Result<usize, FillError> {
            let byte = match index {
                0 => 0xe9,
                1 => b'w',
                _ => return Err(FillError::NotPresent),
            };
            *buffer.first_mut().ok_or(FillError::TooLong)? = byte;
            Ok(1)
        }

        fn var(&self, _name: &str, _buffer: &mut [u8]) -> Result<usize, FillError> {
            Err(FillError::NotPresent)
        }

        fn var_at(&self, _index: usize, _buffer: &mut [u8]) -> Result<usize, FillError> {
            Err(FillError::NotPresent)
        }
    }

    #[test]
    fn has_its_own_name_where_it_is_called_by_no_text(rt: HostRuntime) -> Result<(), Fail> {
        let words: Vec<String> = called_with(rt.alloc(), &Unnamed {}, "named")?.collect(
            rt.alloc(),
        )?;
        match words.as_slice() {
            [name, word] => {
                assert_eq!(rt; name.as_str(), "named");
                assert_eq!(rt; word.as_str(), "w");
                Ok(())
            }
            _ => Err(Fail::new("not two words")),
        }
    }
}
