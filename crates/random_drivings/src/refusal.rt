// Refusals as the rules have them.
use rigs::RigFault;
use runs::{At, RunFault};
use sets::list::ArrayVec;

// A refusal, its number and what it names.
#[derive(Clone, Copy)]
pub struct Refusal {
    fault: RunFault,
    number: u32,
    names: ArrayVec<usize, 2>,
}

impl Refusal {
    // One that names nothing.
    fn plain(fault: RunFault, number: u32) -> Self {
        Refusal {
            fault,
            number,
            names: ArrayVec::new(0),
        }
    }

    pub fn no_position() -> Self {
        Refusal::plain(RunFault::NoPosition, 1)
    }

    pub fn not_open() -> Self {
        Refusal::plain(RunFault::NotOpen, 10)
    }

    pub fn no_slip() -> Self {
        Refusal::plain(RunFault::NoSlip, 11)
    }

    pub fn unknown_action() -> Self {
        Refusal::plain(RunFault::UnknownAction, 2)
    }

    // The rig lacks the fact, which the step at the position needs.
    pub fn missing(position: usize, fact: usize) -> Self {
        let fault = RigFault::Missing(fact);
        Refusal {
            fault: RunFault::Rig(At { position, fault }),
            number: 12,
            names: ArrayVec::collect(0, [position, fact].into_iter()),
        }
    }

    pub fn no_step_left(position: usize) -> Self {
        let fault = RigFault::NoStepLeft;
        Refusal {
            fault: RunFault::Rig(At { position, fault }),
            number: 13,
            names: ArrayVec::collect(0, [position].into_iter()),
        }
    }

    pub fn is(&self, fault: &RunFault) -> bool {
        *fault == self.fault && fault.number() == self.number && fault.values() == self.names
    }
}
