//! What is read: a file, or the standard input.
use crate::question::{Answer, Question};
use anyhow::{Context, ensure};
use program::reading::read_front;
use std::alloc::Global;
use std::fs;

/// The name of the standard input.
pub(crate) const STANDARD_INPUT: &str = "-";

/// The answer about the dump with this name.
pub(crate) fn answer_about(
    rt: &HostRuntime,
    question: &Question,
    name: &str,
) -> anyhow::Result<Answer> {
    let heap = rt.alloc();
    match name {
        STANDARD_INPUT => question.about(heap, &mut rt.stdin()),
        path => match fs::open(rt, path) {
            Ok(mut file) => question.about(heap, &mut file),
            Err(error) => Err(error.into()),
        },
    }
    .with_context(|| format!(in heap; "cannot read {name}"))
}

/// The first bytes of the file with this name, so many at most.
fn front_of(rt: &HostRuntime, name: &str, most: usize) -> anyhow::Result<Vec<u8>> {
    let heap = rt.alloc();
    Ok(match name {
        STANDARD_INPUT => read_front(heap, &mut rt.stdin(), most)?,
        path => read_front(heap, &mut fs::open(rt, path)?, most)?,
    })
}

/// All bytes of the file with this name, which may have so many at most.
pub(crate) fn bytes_of(rt: &HostRuntime, name: &str, most: u32) -> anyhow::Result<Vec<u8>> {
    let bytes = front_of(rt, name, most as usize + 1).with_context(|| format!(in rt.alloc();
        "cannot read {name}"
    ))?;
    ensure!(
        bytes.len() <= most as usize,
        "{name} has more than {most} bytes"
    );
    Ok(bytes)
}
