// Slips: what a taken position is given out by.
ghost use Rattle.std.specs.Prelude.{◌≡◌, None};
ghost use Rattle.runs.specs.Moves.{borne};
ghost use Rattle.runs.specs.Views.{position};

use crate::fault::RunFault;

/// What `take` gives out: it bears the position that is taken, or is blank. One that bears a position may not be
/// dropped: `done` or `put_back` blanks it.
#[derive(Debug)]
pub struct Slip {
    position: Option<usize>,
}

impl Slip {
    /// A slip that bears nothing.
    pub fn blank() -> Slip
        ensures { position result ≡ None }
    {
        Slip { position: None }
    }

    // The slip that goes with the answer of a take of `p`.
    pub(crate) fn given(p: usize, answer: Result<(), RunFault>) -> Slip
        ensures { position result ≡ borne p answer }
    {
        Slip {
            position: answer.ok().map(|_| p),
        }
    }

    /// The position that it bears.
    pub fn position(&self) -> Option<usize>
        ensures { result ≡ position self.now }
    {
        self.position
    }

    pub(crate) fn blank_it(&mut self)
        ensures { position self.new ≡ None }
    {
        self.position = None;
    }
}

impl Drop for Slip {
    fn drop(self)
        requires { position self ≡ None }
    {
        let Slip { position: _ } = self;
    }
}
