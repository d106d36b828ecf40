// Why a run refuses a call.
ghost use Rattle.std.specs.Prelude.{◌≡◌};
ghost use Rattle.runs.specs.Faults.{number_of, values_of};
ghost use Rattle.sets.specs.Contents.{contents};
ghost use Rattle.runs.specs.declared.fault.RunFault.TheVariants.{Rig};

use rigs::RigFault;
use sets::list::ArrayVec;
use thiserror::Error;

/// A rig's refusal, whole, and the position whose action it refuses.
#[derive(Clone, Copy, Debug, PartialEq, Eq, Error)]
#[error("at position {position}, {fault}")]
pub struct At {
    /// The position of the step.
    pub position: usize,
    /// What the rig said.
    pub fault: RigFault,
}

/// Why a run refuses a call.
#[derive(Clone, Copy, Debug, PartialEq, Eq, Error)]
pub enum RunFault {
    /// The sheet has no such position.
    #[error("the sheet has no such position")]
    NoPosition,
    /// The position is not open.
    #[error("the position is not open")]
    NotOpen,
    /// The slip is blank, or its position is not the one taken.
    #[error("the slip is blank, or its position is not the one taken")]
    NoSlip,
    /// The task lacks the action of the step.
    #[error("the task lacks the action of the step")]
    UnknownAction,
    /// The rig refuses.
    #[error("{0}")]
    Rig(At),
}

impl RunFault {
    /// The number that the refusal goes by: 1, 10, 11 or 2 in the sequence of the variants, and for a rig's refusal its
    /// own.
    pub fn number(&self) -> u32
        ensures { result ≡ number_of self.now }
    {
        match self {
            RunFault::NoPosition => 1,
            RunFault::NotOpen => 10,
            RunFault::NoSlip => 11,
            RunFault::UnknownAction => 2,
            RunFault::Rig(at) => at.fault.number(),
        }
    }

    /// What the refusal names: the position and what the rig's refusal names, or nothing.
    pub fn values(&self) -> ArrayVec<usize, 2>
        ensures { contents result ≡ values_of self.now }
    {
        let mut values = ArrayVec::new(0);
        if let RunFault::Rig(at) = self {
            let _ = values.push(at.position);
            if let RigFault::Missing(fact) = at.fault {
                let _ = values.push(fact);
            }
        }
        values
    }
}

// By hand: the contract of `done` names the fault that a `?` makes.
impl From<At> for RunFault {
    ghost from_gives = { λ at r. r ≡ Rig at };

    fn from(at: At) -> RunFault {
        RunFault::Rig(at)
    }
}
