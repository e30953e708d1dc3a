//! What the programs that answer their input with a text have in common.
#![tactic(auto)]

ghost use Rattle.std.specs.Prelude.{ℕ, List, take, IfOk, OnOk, IfSome, string_bytes};
ghost use Rattle.std.specs.Io.KnownBytes.{Appends};
ghost use Rattle.program.specs.Sizes.{storage_size, deciding_size};
ghost use Rattle.program.specs.Reading.{LeavesBehind};

use reading::read_front;
use std::alloc::Global;
use std::io::{Read, Write};
use trace::record::RECORD;

pub mod call;
pub mod reading;

/// How many events the programs have room for.
pub const ROOM: usize = 4096;

/// How many bytes they keep them in.
pub const STORAGE: usize = ROOM * RECORD;

/// How many bytes of a dump decide: one record more.
pub const DECIDING: usize = STORAGE + RECORD;

/// A text that is made of an input.
pub trait InputText {
    ghost Makes: { Self → ℕ → List ℕ → List ℕ → Type 0 };

    /// The text of the input, with `size` bytes to keep events in.
    fn text(&self, heap: Global, size: usize, input: &[u8]) -> anyhow::Result<String>
        ensures { IfOk result (λ s. Makes self.now size input.now (string_bytes s)) };
}

/// A text that is made of a dump: of its records those that there is room for decide, and one more.
pub trait DumpText: InputText {
    ghost decided: { (it : Self) (size : ℕ) (dump s : List ℕ) → Self.Makes it size (take (deciding_size size) dump) s → Self.Makes it size dump s };
}

/// Writes the text that is made of an input.
fn write_text<O: Write, T: InputText>(
    heap: Global,
    input: &[u8],
    output: &mut O,
    text: &T,
) -> anyhow::Result<()>
    ensures { OnOk result ((s : List ℕ)
        × T.InputText.Makes text.now storage_size input.now s × Appends (O.contents output.old) (O.contents output.new) s) }
{
    let text = text.text(heap, STORAGE, input)?;
    output.write_all(text.as_bytes())?;
    Ok(())
}

/// Reads the input to its end, and writes the text that is made of it.
pub fn print_text<I: Read, O: Write, T: InputText>(
    heap: Global,
    input: &mut I,
    output: &mut O,
    text: &T,
) -> anyhow::Result<()>
    ensures { OnOk result (IfSome (I.remaining input.old) (λ bytes. (s : List ℕ)
        × T.InputText.Makes text.now storage_size bytes s × Appends (O.contents output.old) (O.contents output.new) s)) }
{
    let mut bytes = Vec::new(heap);
    input.read_to_end(&mut bytes)?;
    write_text(heap, bytes.as_slice(), output, text)
}

/// Writes the text that is made of all of the input, and reads no more of it than what decides.
pub fn print_dump_text<I: Read, O: Write, T: DumpText>(
    heap: Global,
    input: &mut I,
    output: &mut O,
    text: &T,
) -> anyhow::Result<()>
    ensures text { OnOk result (IfSome (I.remaining input.old) (λ bytes. (s : List ℕ)
        × T.InputText.Makes text.now storage_size bytes s × Appends (O.contents output.old) (O.contents output.new) s)) }
    ensures left { OnOk result (LeavesBehind (I.remaining input.old) (deciding_size storage_size) (I.remaining input.new)) }
{
    let front = read_front(heap, input, DECIDING)?;
    write_text(heap, front.as_slice(), output, text)
}

#[cfg(test)]
mod tests {
    use super::{DumpText, InputText, print_dump_text, print_text};
    use std::alloc::Global;
    use std::io;

    /// The size that is given, and the length of the input.
    struct Lengths {}

    impl InputText for Lengths {
        ghost Makes = { λ _ _ _ _. Unit {0} };

        fn text(&self, heap: Global, size: usize, input: &[u8]) -> anyhow::Result<String> {
            Ok(format!(in heap; "{} bytes, size {size}", input.len())?)
        }
    }

    impl DumpText for Lengths {
        ghost decided = { λ _ _ _ _ made. made };
    }

    #[test]
    fn prints_what_is_made_of_the_input(rt: HostRuntime) -> anyhow::Result<()> {
        let heap = rt.alloc();
        let mut output = Vec::new(heap);
        print_text(heap, &mut b"records".as_slice(), &mut output, &Lengths {})?;
        assert!(rt; output.as_slice() == b"7 bytes, size 32768".as_slice());
        Ok(())
    }

    #[test]
    fn reads_no_more_of_a_dump_than_decides(rt: HostRuntime) -> anyhow::Result<()> {
        let heap = rt.alloc();
        let mut output = Vec::new(heap);
        print_dump_text(heap, &mut io::repeat(1), &mut output, &Lengths {})?;
        assert!(rt; output.as_slice() == b"32776 bytes, size 32768".as_slice());
        Ok(())
    }
}
