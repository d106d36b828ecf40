// Whether a run has a position taken, and what the calls make of that.
ghost use Rattle.std.specs.Prelude.{◌≡◌, None};
ghost use Rattle.runs.specs.Moves.{Moves};

use crate::fault::RunFault;

/// Nothing is taken, or one position is.
#[derive(Clone, Copy, Debug, PartialEq, Eq)]
pub(crate) enum State {
    Hand,
    Taken(usize),
}

/// A call: on the position that it asks for, or by what the slip bears.
#[derive(Clone, Copy, Debug, PartialEq, Eq)]
pub(crate) enum Call {
    Take(usize),
    Done(Option<usize>),
    PutBack(Option<usize>),
}

impl State {
    // The state after the call, and the position that it is about; or why the state refuses it.
    pub(crate) fn after(self, call: Call) -> Result<(State, usize), RunFault>
        ensures { Moves self call result }
    {
        match (self, call) {
            (State::Hand, Call::Take(p)) => Ok((State::Taken(p), p)),
            (State::Taken(p), Call::Done(Some(q)) | Call::PutBack(Some(q))) if p == q => {
                Ok((State::Hand, p))
            }
            (_, Call::Take(_)) => Err(RunFault::NotOpen),
            (_, Call::Done(_) | Call::PutBack(_)) => Err(RunFault::NoSlip),
        }
    }
}
