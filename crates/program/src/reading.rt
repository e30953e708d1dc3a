//! Reading no more of an input than its front.
ghost use Rattle.std.specs.Prelude.{◌≡◌, take, length, vec_items, IfOk, IfSome, OnOk};
ghost use Rattle.program.specs.Reading.{Fills, LeavesBehind};

use std::alloc::Global;
use std::io::{self, ErrorKind, Read};

/// How many bytes are read at a time.
const PIECE: usize = 1 << 14;

/// Fills the buffer from the input as far as that goes; answers how many bytes it read.
fn fill<I: Read>(input: &mut I, buffer: &mut [u8]) -> io::Result<usize>
    ensures { IfOk result (λ n. Fills (I.remaining input.old) (I.remaining input.new) n buffer.new) }
{
    let mut filled = 0;
    for _ in 0..u64::MAX {
        if filled == buffer.len() {
            return Ok(filled);
        }
        match input.read(&mut buffer[filled..]) {
            Ok(0) => return Ok(filled),
            Ok(count) => filled += count,
            Err(error) => {
                if error.kind() != ErrorKind::Interrupted {
                    return Err(error);
                }
            }
        }
    }
    Err(io::Error::from(ErrorKind::TimedOut))
}

/// The first bytes of the input, `most` at most; what is behind them is still to be read.
pub fn read_front<I: Read>(heap: Global, input: &mut I, most: usize) -> io::Result<Vec<u8>>
    ensures front { IfOk result (λ front. IfSome (I.remaining input.old) (λ bytes. vec_items front ≡ take most bytes)) }
    ensures left { OnOk result (LeavesBehind (I.remaining input.old) most (I.remaining input.new)) }
{
    let mut piece = [0u8; PIECE];
    let mut front = Vec::new(heap);
    while front.len() < most {
        let wanted = PIECE.min(most - front.len());
        let filled = fill(input, &mut piece[..wanted])?;
        front.extend_from_slice(&piece[..filled])?;
        if filled < wanted {
            break;
        }
    }
    Ok(front)
}

#[cfg(test)]
mod tests {
    use super::read_front;
    use std::io::{self, ErrorKind, Read};
    use std::test::Fail;

    /// Gives a byte at a time, and an interruption before each; fails after the third.
    #[derive(Drop)]
    struct Halting {
        reads: u8,
    }

    impl Read for Halting {
        fn read(&mut self, buffer: &mut [u8]) -> io::Result<usize> {
            let reads = self.reads;
            self.reads = reads.saturating_add(1);
            if reads % 2 == 0 {
                return Err(io::Error::from(ErrorKind::Interrupted));
            }
            match buffer {
                [first, ..] if reads < 6 => {
                    *first = reads;
                    Ok(1)
                }
                _ => Err(io::Error::from(ErrorKind::BrokenPipe)),
            }
        }
    }

    #[test]
    fn reads_on_after_an_interruption(rt: HostRuntime) -> Result<(), Fail> {
        let front = read_front(rt.alloc(), &mut Halting { reads: 0 }, 3)?;
        assert!(rt; front.as_slice() == [1, 3, 5].as_slice());
        Ok(())
    }

    #[test]
    fn tells_that_a_read_failed(rt: HostRuntime) -> Result<(), Fail> {
        match read_front(rt.alloc(), &mut Halting { reads: 0 }, 4) {
            Ok(_) => Err(Fail::new("a failed read is passed over")),
            Err(error) => {
                assert!(rt; error.kind() == ErrorKind::BrokenPipe);
                Ok(())
            }
        }
    }
}
