//! A run: any list of calls, performed on a session that is opened for it.
#![tactic(auto)]

ghost use Rattle.std.specs.Prelude.{◌≡◌, []};
ghost use Rattle.reel.specs.Lent.{recorded_in};
ghost use Rattle.run.specs.Runs.{trace_after, so_far, Served, Upholds};

use answer::collector::BufferFault;
use answer::fault::{EntryRefusal, PairFault};
use answer::verdict::{PartnersFault, RacePair, Verdict, WitnessFault};
use reel::Reel;
use session::session::Session;

/// A call: its arguments, the buffer that it fills, and the place for what it answers.
#[derive(Drop)]
pub enum Call {
    Enter {
        bytes: Vec<u8>,
        answer: Option<Result<(), EntryRefusal>>,
    },
    Load {
        bytes: Vec<u8>,
        answer: Option<Result<usize, EntryRefusal>>,
    },
    Judge {
        p: usize,
        q: usize,
        answer: Option<Result<Verdict, PairFault>>,
    },
    Witness {
        p: usize,
        q: usize,
        buffer: Vec<u16>,
        answer: Option<Result<usize, WitnessFault>>,
    },
    Partners {
        q: usize,
        buffer: Vec<u16>,
        answer: Option<Result<usize, PartnersFault>>,
    },
    Sweep {
        buffer: Vec<RacePair>,
        answer: Option<Result<usize, BufferFault>>,
    },
}

/// Performs one call, in place.
fn serve<R: Reel>(session: &mut Session<R>, call: &mut Call)
    ensures served { let s = session.old in Served s.room s.trace call.old call.new }
    ensures trace { let s = session.old in session.new.trace ≡ trace_after s.room s.trace call.old }
    ensures room { session.new.room ≡ session.old.room }
    ensures lent { let s = session.old in session.new.lent ≡ recorded_in s.lent s.trace session.new.trace }
    ensures loan { session.new.loan ≡ session.old.loan }
{
    match call {
        Call::Enter { bytes, answer } => *answer = Some(session.enter(bytes.as_slice())),
        Call::Load { bytes, answer } => *answer = Some(session.load(bytes.as_slice())),
        Call::Judge { p, q, answer } => *answer = Some(session.judge(*p, *q)),
        Call::Witness {
            p,
            q,
            buffer,
            answer,
        } => *answer = Some(session.witness(*p, *q, buffer.as_mut_slice())),
        Call::Partners { q, buffer, answer } => {
            *answer = Some(session.partners(*q, buffer.as_mut_slice()))
        }
        Call::Sweep { buffer, answer } => *answer = Some(session.sweep(buffer.as_mut_slice())),
    }
}

/// Performs the calls one after another, in place, on a session that is opened over the reel, and returns the session.
pub fn perform<R: Reel>(reel: R, calls: &mut [Call]) -> Session<R>
    ensures calls { Upholds (R.Reel.room reel) calls.old calls.new }
    ensures trace { result.trace ≡ so_far (R.Reel.room reel) calls.old }
    ensures room { result.room ≡ R.Reel.room reel }
    ensures lent { result.lent ≡ recorded_in (R.Reel.lent reel) [] result.trace }
    ensures loan { result.loan ≡ R.Reel.loan reel }
{
    let mut session = Session::open(reel);
    for call in calls.iter_mut() {
        serve(&mut session, call);
    }
    session
}
