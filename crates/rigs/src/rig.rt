// What a rig is.
ghost use Rattle.std.specs.Prelude.{◌≡◌, ℕ, ◌<◌, ◌^◌, not, ◌&&◌, true, false, MatchBool, MatchResult};
ghost use Rattle.driving.specs.Meanings.{Meaning, Performs, Stand};
ghost use Rattle.rigs.specs.Faults.{Refuses, told, why};
ghost use Rattle.rigs.specs.Keeping.{Keeps};
ghost use Rattle.sets.specs.Sets.{has};

use crate::fault::RigFault;
use task::Facts;

/// Facts that stand, and a number of steps that are left.
pub trait Rig {
    ghost meaning: { Self → Meaning };

    // What no call changes, as the place that a rig borrows.
    ghost kept: { Self → Self → Type 0 };

    /// Those facts of the set that do not stand.
    fn missing(&self, set: &Facts) -> Facts
        ensures { (f : ℕ) → has result f ≡ (has set.now f && not ((meaning self.now).standing f)) };

    /// How many steps are left.
    fn left(&self) -> u16
        ensures { result ≡ (meaning self.now).left };

    /// Performs an action that needs, adds and deletes these facts, with one step fewer left; or refuses, and means
    /// what it did.
    fn perform(&mut self, needs: &Facts, adds: &Facts, deletes: &Facts) -> Result<(), RigFault>
        ensures performs { Performs (has needs.now) (has adds.now) (has deletes.now)
            (meaning self.old) (told result) (meaning self.new) }
        ensures keeps { kept self.old self.new };

    /// Whether it would perform an action with these needs, or why it refuses one.
    fn ready(&self, needs: &Facts) -> Result<(), RigFault>
        ensures { MatchResult result
            (λ _. Stand (has needs.now) (meaning self.now).standing × (0 < (meaning self.now).left))
            (λ fault. Refuses (has needs.now) (meaning self.now) (why fault)) }
    {
        if let Some(fact) = self.missing(needs).lowest() {
            return Err(RigFault::Missing(fact));
        }
        if self.left() == 0 {
            return Err(RigFault::NoStepLeft);
        }
        Ok(())
    }

    /// Whether all facts of the set stand.
    final fn stands(&self, set: &Facts) -> bool
        ensures { MatchBool result
            (Stand (has set.now) (meaning self.now).standing)
            ((f : ℕ) × (has set.now f ≡ true) × ((meaning self.now).standing f ≡ false)) }
    {
        self.missing(set).is_empty()
    }

    ghost keeping: { Keeps kept };

    ghost few: { (rig : Self) → (meaning rig).left < 2 ^ 16 };
}
