// The rig that keeps its facts in one number.
ghost use Rattle.std.specs.Prelude.{◌≡◌, ◌<◌, ◌^◌, ⊤};
ghost use Rattle.sets.specs.Sets.{has};

use crate::fault::RigFault;
use crate::rig::Rig;
use task::{Action, Facts};

/// A rig that keeps its facts in one number.
#[derive(Clone, Copy)]
pub struct WordRig {
    facts: Facts,
    left: u16,
    ghost few: { left < 2 ^ 16 },
}

impl WordRig {
    ghost use Rattle.rigs.specs.Words.{meaning_of};

    /// A rig on which these facts stand, and so many steps are left.
    pub fn new(facts: Facts, left: u16) -> Self
        ensures { meaning_of result ≡ record { standing = has facts; left = left } }
    {
        WordRig { facts, left }
    }
}

impl Rig for WordRig {
    ghost use Rattle.rigs.specs.Words.{meaning_of};

    ghost meaning = { meaning_of };

    ghost kept = { λ _ _. ⊤ };

    ghost keeping = { record { still = λ _. tt; on = λ _ _ _ _ _. tt } };

    ghost few = { λ rig. rig.few };

    fn missing(&self, set: &Facts) -> Facts {
        set.minus(&self.facts)
    }

    fn left(&self) -> u16 {
        self.left
    }

    fn perform(&mut self, needs: &Facts, adds: &Facts, deletes: &Facts) -> Result<(), RigFault> {
        self.ready(needs)?;
        self.facts = self.facts.minus(deletes).union(adds);
        self.left -= 1;
        Ok(())
    }
}
