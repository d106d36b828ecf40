// A run, and the slip of the position that it has taken.
ghost use Rattle.std.specs.Prelude.{◌≡◌, None};
ghost use Rattle.random_drivings.specs.Slips.{Frees, Gives};
ghost use Rattle.runs.specs.Views.{position, taken};

use crate::seen::Seen;
use rigs::Rig;
use runs::{Run, RunFault, Slip};
use sets::bits::BitSet;
use sheet::Sheet;
use std::mem;
use task::Task;

// What is asked for by a slip.
#[derive(Clone, Copy, Debug, PartialEq, Eq)]
pub enum Act {
    Done,
    PutBack,
}

// What a run answers, and what the slip of the call bears then.
#[derive(Clone, Copy)]
pub struct Answer {
    pub outcome: Result<(), RunFault>,
    pub borne: Option<usize>,
}

// Numbers that are no position of a small sheet.
const FAR: [usize; 4] = [7, 127, 128, usize::MAX];

// The slip bears what the run has taken, so that it can be put back wherever a comparison ends.
pub struct Holding<'a> {
    run: Run<'a>,
    slip: Slip,
    ghost own: { position slip ≡ taken run },
}

fn take(run: &mut Run<'_>, p: usize) -> (Result<(), RunFault>, Slip)
    ensures { Gives (taken run.old) result.0 (position result.1) (taken run.new) }
{
    run.take(p)
}

fn ask<R: Rig>(run: &mut Run<'_>, slip: &mut Slip, act: Act, rig: &mut R) -> Result<(), RunFault>
    ensures { Frees (taken run.old) (position slip.old) result (taken run.new) (position slip.new) }
{
    match act {
        Act::Done => run.done(slip, rig),
        Act::PutBack => run.put_back(slip),
    }
}

// After it the slip is blank.
fn clear(run: &mut Run<'_>, slip: &mut Slip)
    requires { position slip.old ≡ taken run.old }
    ensures { position slip.new ≡ None }
{
    let _ = run.put_back(slip);
}

impl<'a> Holding<'a> {
    pub fn open(task: &'a Task, sheet: &'a Sheet) -> Self {
        Holding {
            run: Run::open(task, sheet),
            slip: Slip::blank(),
        }
    }

    // The answer, and what the slip bears that comes with it.
    pub fn take(&mut self, p: usize) -> Answer {
        let (outcome, slip) = take(&mut self.run, p);
        let borne = slip.position();
        if outcome.is_ok() {
            self.slip = slip;
        }
        Answer { outcome, borne }
    }

    // Asks by the own slip.
    pub fn ask<R: Rig>(&mut self, act: Act, rig: &mut R) -> Answer {
        let outcome = ask(&mut self.run, &mut self.slip, act, rig);
        Answer {
            outcome,
            borne: self.slip.position(),
        }
    }

    // Asks by the slip of another run. Where that one served, both bore one position, and the own serves the other run.
    pub fn ask_by_slip_of<R: Rig>(&mut self, other: &mut Self, act: Act, rig: &mut R) -> Answer {
        let outcome = ask(&mut self.run, &mut other.slip, act, rig);
        let borne = other.slip.position();
        if outcome.is_ok() {
            mem::swap(&mut self.slip, &mut other.slip);
        }
        Answer { outcome, borne }
    }

    // Asks by a slip that bears nothing.
    pub fn ask_by_blank<R: Rig>(&mut self, act: Act, rig: &mut R) -> Answer {
        let mut blank = Slip::blank();
        let outcome = ask(&mut self.run, &mut blank, act, rig);
        Answer {
            outcome,
            borne: blank.position(),
        }
    }

    // What the run and the slip say of themselves, over a sheet of `n` steps.
    pub fn seen(&self, n: usize) -> Seen {
        let run = &self.run;
        Seen {
            taken: run.taken(),
            borne: self.slip.position(),
            done: BitSet::below_where(128, |p| run.is_done(p)),
            open: BitSet::below_where(n, |p| run.is_open(p)),
            open_positions: run.open_positions(),
            has_far: FAR.iter().any(|p| run.is_open(*p) || run.is_done(*p)),
            is_finished: run.is_finished(),
        }
    }
}

impl Drop for Holding<'_> {
    fn drop(self) {
        let Holding { mut run, mut slip } = self;
        clear(&mut run, &mut slip);
    }
}
