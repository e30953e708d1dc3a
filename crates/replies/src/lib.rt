//! The lines of the answered calls of a run.
#![tactic(auto)]

ghost use Rattle.std.specs.Prelude.{◌≡◌, ℕ, List, IfOk, Some, vec_items, string_bytes};
ghost use Rattle.std.specs.Fmt.{DisplaysOnOk};
ghost use Rattle.std.specs.List.{flat_map};
ghost use Rattle.reel.specs.Stored.{room_for};
ghost use Rattle.answer.specs.Faults.{refusal};
ghost use Rattle.replies.specs.Replies.{layer_name, verdict_name, position_entry, pair_entry, refused_entry, buffer_line, enter_line, load_line, judge_line, reply_line, reply_lines, told_lines, Told};

use answer::fault::{EntryRefusal, Layer, Layered, PairFault};
use answer::verdict::{RacePair, Verdict};
use reel::host::HostReel;
use run::{Call, perform};
use std::alloc::{AllocError, Global};
use std::fmt;
use std::fmt::Display;
use trace::fault::Fault;

/// What has a text of its own here.
// a trait of our own, since `Display` is not to be had for types of other crates
trait Text {
    ghost text: { Self → List ℕ };

    /// Writes the text.
    fn write_to<W: fmt::Write>(&self, f: &mut fmt::Formatter<W>) -> fmt::Result
        ensures { DisplaysOnOk W.write_str_gives f.old result (Some (text self.now)) f.new };
}

/// A position in a buffer.
impl Text for u16 {
    ghost text = { position_entry };

    fn write_to<W: fmt::Write>(&self, f: &mut fmt::Formatter<W>) -> fmt::Result {
        let position = *self;
        write!(f, " {position}")
    }
}

/// A pair in a buffer.
impl Text for RacePair {
    ghost text = { pair_entry };

    fn write_to<W: fmt::Write>(&self, f: &mut fmt::Formatter<W>) -> fmt::Result {
        let first = self.first;
        let second = self.second;
        write!(f, " {first}-{second}")
    }
}

/// The texts of some items, one after another.
#[derive(Drop)]
struct Texts<'a, T>(&'a [T]);

impl<T: Text> fmt::Display for Texts<'_, T> {
    ghost output = { λ t. Some (flat_map T.Text.text t.0.now) };

    fn fmt<W: fmt::Write>(&self, f: &mut fmt::Formatter<W>) -> fmt::Result {
        for item in self.0 {
            item.write_to(f)?;
        }
        Ok(())
    }
}

/// The name of a layer.
#[derive(Clone, Copy)]
struct LayerName(Layer);

impl fmt::Display for LayerName {
    ghost output = { λ n. Some (layer_name n.0) };

    fn fmt<W: fmt::Write>(&self, f: &mut fmt::Formatter<W>) -> fmt::Result {
        f.write_str(match self.0 {
            Layer::Record => "record",
            Layer::Trace => "trace",
            Layer::Reel => "reel",
            Layer::Pair => "pair",
            Layer::Verdict => "verdict",
            Layer::Buffer => "buffer",
        })
    }
}

/// A verdict in words.
#[derive(Clone, Copy)]
struct VerdictName(Verdict);

impl fmt::Display for VerdictName {
    ghost output = { λ n. Some (verdict_name n.0) };

    fn fmt<W: fmt::Write>(&self, f: &mut fmt::Formatter<W>) -> fmt::Result {
        f.write_str(match self.0 {
            Verdict::Race => "race",
            Verdict::NoRace => "no race",
        })
    }
}

/// What a call says of a record that it refuses.
#[derive(Clone, Copy)]
struct RefusedEntry(EntryRefusal);

impl fmt::Display for RefusedEntry {
    ghost output = { λ r. Some (refused_entry (refusal r.0)) };

    fn fmt<W: fmt::Write>(&self, f: &mut fmt::Formatter<W>) -> fmt::Result {
        let number = self.0.fault.number();
        let layer = LayerName(self.0.fault.layer());
        let index = self.0.index;
        write!(f, "refused {number} {layer} {index}")
    }
}

/// The line of a call that fills a buffer: it answers how many entries it has, or is refused, or is still to be performed.
#[derive(Drop)]
struct BufferLine<'a, F, T> {
    call: &'static str,
    answer: Option<Result<usize, F>>,
    buffer: &'a [T],
}

impl<'a, F: Fault, T> BufferLine<'a, F, T> {
    /// The line of the call with this answer and this buffer.
    fn of(
        call: &'static str,
        answer: &Option<Result<usize, F>>,
        buffer: &'a Vec<T>,
    ) -> BufferLine<'a, F, T>
        ensures call { result.call.now ≡ call.now }
        ensures answer { result.answer ≡ answer.now }
        ensures buffer { result.buffer.now ≡ vec_items buffer.now }
    {
        BufferLine {
            call,
            answer: *answer,
            buffer: buffer.as_slice(),
        }
    }
}

impl<F: Fault, T: Text> fmt::Display for BufferLine<'_, F, T> {
    ghost output = { λ l. Some (buffer_line F.Fault.number T.Text.text l.call.now l.answer l.buffer.now) };

    fn fmt<W: fmt::Write>(&self, f: &mut fmt::Formatter<W>) -> fmt::Result {
        let call = self.call;
        let entries = Texts(self.buffer);
        match self.answer {
            Some(Ok(count)) => writeln!(f, "{call} {count} buffer{entries}"),
            Some(Err(fault)) => {
                let number = fault.number();
                writeln!(f, "{call} refused {number} buffer{entries}")
            }
            None => writeln!(f, "{call} not performed"),
        }
    }
}

/// The line of Enter.
#[derive(Clone, Copy)]
struct EnterLine(Option<Result<(), EntryRefusal>>);

impl fmt::Display for EnterLine {
    ghost output = { λ l. Some (enter_line l.0) };

    fn fmt<W: fmt::Write>(&self, f: &mut fmt::Formatter<W>) -> fmt::Result {
        match self.0 {
            Some(Ok(())) => writeln!(f, "enter taken"),
            Some(Err(refused)) => {
                let refused = RefusedEntry(refused);
                writeln!(f, "enter {refused}")
            }
            None => writeln!(f, "enter not performed"),
        }
    }
}

/// The line of Load.
#[derive(Clone, Copy)]
struct LoadLine(Option<Result<usize, EntryRefusal>>);

impl fmt::Display for LoadLine {
    ghost output = { λ l. Some (load_line l.0) };

    fn fmt<W: fmt::Write>(&self, f: &mut fmt::Formatter<W>) -> fmt::Result {
        match self.0 {
            Some(Ok(count)) => writeln!(f, "load {count}"),
            Some(Err(refused)) => {
                let refused = RefusedEntry(refused);
                writeln!(f, "load {refused}")
            }
            None => writeln!(f, "load not performed"),
        }
    }
}

/// The line of Judge.
#[derive(Clone, Copy)]
struct JudgeLine(Option<Result<Verdict, PairFault>>);

impl fmt::Display for JudgeLine {
    ghost output = { λ l. Some (judge_line l.0) };

    fn fmt<W: fmt::Write>(&self, f: &mut fmt::Formatter<W>) -> fmt::Result {
        match self.0 {
            Some(Ok(verdict)) => {
                let verdict = VerdictName(verdict);
                writeln!(f, "judge {verdict}")
            }
            Some(Err(fault)) => {
                let number = fault.number();
                writeln!(f, "judge refused {number}")
            }
            None => writeln!(f, "judge not performed"),
        }
    }
}

/// The line of a call.
#[derive(Drop)]
struct Line<'a>(&'a Call);

impl fmt::Display for Line<'_> {
    ghost output = { λ l. Some (reply_line l.0.now) };

    fn fmt<W: fmt::Write>(&self, f: &mut fmt::Formatter<W>) -> fmt::Result {
        match self.0 {
            Call::Enter { answer, .. } => EnterLine(*answer).fmt(f),
            Call::Load { answer, .. } => LoadLine(*answer).fmt(f),
            Call::Judge { answer, .. } => JudgeLine(*answer).fmt(f),
            Call::Witness { buffer, answer, .. } => {
                BufferLine::of("witness", answer, buffer).fmt(f)
            }
            Call::Partners { buffer, answer, .. } => {
                BufferLine::of("partners", answer, buffer).fmt(f)
            }
            Call::Sweep { buffer, answer } => BufferLine::of("sweep", answer, buffer).fmt(f),
        }
    }
}

/// The text of a call is its line.
impl Text for Call {
    ghost text = { reply_line };

    fn write_to<W: fmt::Write>(&self, f: &mut fmt::Formatter<W>) -> fmt::Result {
        Line(self).fmt(f)
    }
}

/// The text of the line of a call.
pub fn reply_line(heap: Global, call: &Call) -> Result<String, AllocError>
    ensures { IfOk result (λ s. string_bytes s ≡ reply_line call.now) }
{
    Line(call).to_string(heap)
}

/// The lines of calls, in their order.
pub fn reply_lines(heap: Global, calls: &[Call]) -> Result<String, AllocError>
    ensures { IfOk result (λ s. string_bytes s ≡ reply_lines calls.now) }
{
    Texts(calls).to_string(heap)
}

/// The lines of calls, each below the words that stand for it in a script, where there are some.
fn told_lines(heap: Global, words: &[&str], calls: &[Call]) -> Result<String, AllocError>
    ensures { IfOk result (λ s. string_bytes s ≡ told_lines words.now calls.now) }
{
    let mut text = String::new(heap);
    for (index, call) in calls.iter().enumerate() {
        let line = Line(call);
        match words.get(index) {
            Some(words) => write!(text, "> {words}\n{line}")?,
            None => write!(text, "{line}")?,
        }
    }
    Ok(text)
}

/// Performs the calls of a script one after another on a session that is opened over a host reel in `size` bytes, which are made here, and
/// returns their lines, each below the words of the call, where there are some.
pub fn told_in(
    heap: Global,
    size: usize,
    words: &[&str],
    mut calls: Vec<Call>,
) -> Result<String, AllocError>
    ensures { IfOk result (λ s. Told (room_for size) words.now (vec_items calls) (string_bytes s)) }
{
    let mut storage = vec![in heap; 0u8; size]?;
    let _session = perform(HostReel::over(storage.as_mut_slice()), calls.as_mut_slice());
    told_lines(heap, words, calls.as_slice())
}
