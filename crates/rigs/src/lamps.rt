// The rig of lamps that its caller lends.
ghost use Rattle.std.specs.Prelude.{◌≡◌, ℕ, ◌<◌, ◌^◌, not, ◌&&◌, cond, MatchResult};
ghost use Rattle.std.proofs.Common.{refl, ◌∙◌};
ghost use Rattle.driving.specs.Meanings.{Performs};
ghost use Rattle.rigs.specs.Faults.{told};
ghost use Rattle.rigs.specs.Lamps.{Lights, kept_on, kept_still, lit, shown, shown_few};
ghost use Rattle.sets.specs.Sets.{has};

use crate::fault::RigFault;
use crate::rig::Rig;
use task::{Facts, Task};

/// A rig of one lamp for each fact, a byte that its caller lends: a fact stands where it is not 0. Over any other
/// number of bytes no fact stands and no step is left.
#[derive(Drop)]
pub struct LampRig<'a> {
    lamps: &'a mut [u8],
    left: u16,
    ghost few: { left < 2 ^ 16 },
}

impl<'a> LampRig<'a> {
    ghost use Rattle.rigs.specs.LampRigs.{Borrows, bytes_of, meaning_of};

    /// A rig over these lamps, with so many steps left; over another number of bytes than 64, none.
    pub fn new(lamps: &'a mut [u8], left: u16) -> Self
        ensures same_lamps { Borrows result lamps.entry }
        ensures bytes { bytes_of result ≡ lamps.old }
        ensures means { meaning_of result ≡ shown lamps.old left }
    {
        LampRig { lamps, left }
    }
}

impl Rig for LampRig<'_> {
    ghost use Rattle.rigs.specs.LampRigs.{KeepsLamps, bytes_of, meaning_of};

    ghost meaning = { meaning_of };

    ghost kept = { KeepsLamps };

    fn missing(&self, set: &Facts) -> Facts {
        dark(self.lamps, set)
    }

    fn left(&self) -> u16 {
        if self.lamps.len() == Task::MOST_FACTS {
            self.left
        } else {
            0
        }
    }

    /// Besides, it says what every byte is then: the lamp of a fact that is added is 1, of one deleted and not added
    /// 0, and all others, and all where it refuses, are as they were.
    fn perform(&mut self, needs: &Facts, adds: &Facts, deletes: &Facts) -> Result<(), RigFault>
        ensures performs { Performs (has needs.now) (has adds.now) (has deletes.now)
            (meaning_of self.old) (told result) (meaning_of self.new) }
        ensures keeps { KeepsLamps self.old self.new }
        ensures bytes { MatchResult result
            (λ _. Lights (has adds.now) (has deletes.now) (bytes_of self.old) (bytes_of self.new))
            (λ _. bytes_of self.new ≡ bytes_of self.old) }
    {
        self.ready(needs)?;
        light(self.lamps, adds, deletes);
        self.left -= 1;
        Ok(())
    }

    ghost keeping = { record {
      still = λ rig. (refl, kept_still rig.lamps.now);
      on = λ rig then last p q. (q.0 ∙ p.0, kept_on rig.lamps.now then.lamps.now last.lamps.now p.1 q.1);
    } };

    ghost few = { λ rig. shown_few rig.lamps.now rig.left rig.few };
}

// Those facts of the set whose lamps are dark.
fn dark(lamps: &[u8], set: &Facts) -> Facts
    ensures { (f : ℕ) → has result f ≡ (has set.now f && not (lit lamps.now f)) }
{
    if lamps.len() != Task::MOST_FACTS {
        return *set;
    }
    Facts::below_where(Task::MOST_FACTS, |f| set.has(f) && lamps[f] == 0)
}

// Lights the lamps of the facts that are added, and puts out those of the others that are deleted.
fn light(lamps: &mut [u8], adds: &Facts, deletes: &Facts)
    ensures { Lights (has adds.now) (has deletes.now) lamps.old lamps.new }
{
    for (f, lamp) in lamps.iter_mut().enumerate() {
        if adds.has(f) {
            *lamp = 1;
        } else if deletes.has(f) {
            *lamp = 0;
        }
    }
}
