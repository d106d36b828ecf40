// Why a rig refuses an action.
ghost use Rattle.std.specs.Prelude.{◌≡◌};
ghost use Rattle.sets.specs.Contents.{contents};
ghost use Rattle.rigs.specs.Faults.{number_of, values_of};

use sets::list::ArrayVec;
use thiserror::Error;

/// Why a rig refuses to perform an action.
#[derive(Clone, Copy, Debug, PartialEq, Eq, Error)]
pub enum RigFault {
    /// The action needs this fact, which does not stand; it is the lowest such.
    #[error("fact {0} does not stand")]
    Missing(usize),
    /// No step is left.
    #[error("no step is left")]
    NoStepLeft,
}

impl RigFault {
    /// The number that the refusal goes by: 12 for a fact that does not stand, 13 where no step is left.
    pub fn number(&self) -> u32
        ensures { result ≡ number_of self.now }
    {
        match self {
            RigFault::Missing(_) => 12,
            RigFault::NoStepLeft => 13,
        }
    }

    /// What the refusal names: the fact, or nothing.
    pub fn values(&self) -> ArrayVec<usize, 1>
        ensures { contents result ≡ values_of self.now }
    {
        let mut values = ArrayVec::new(0);
        if let RigFault::Missing(fact) = self {
            let _ = values.push(*fact);
        }
        values
    }
}
