// A rig that is watched.
ghost use Rattle.std.specs.Prelude.{◌≡◌, [], length};
ghost use Rattle.sets.specs.Contents.{contents};

use rigs::{Rig, RigFault};
use sets::list::ArrayVec;
use task::{Facts, LONGEST_LIST, Task};

/// Performs what the rig below performs, and notes which facts stand after each step, of the first 128.
#[derive(Drop)]
pub struct Watched<R> {
    pub below: R,
    pub seen: ArrayVec<Facts, LONGEST_LIST>,
}

impl<R: Rig> Watched<R> {
    /// Over this rig, with nothing seen yet.
    pub fn new(below: R) -> Self
        ensures below { result.below ≡ below }
        ensures fresh { contents result.seen ≡ [] }
    {
        Watched {
            below,
            seen: ArrayVec::new(Facts::empty()),
        }
    }
}

/// The facts that stand on the rig.
pub fn standing<R: Rig>(rig: &R) -> Facts {
    let all = Facts::below(Task::MOST_FACTS);
    all.minus(&rig.missing(&all))
}

impl<R: Rig> Rig for Watched<R> {
    ghost meaning = { λ rig. R.meaning rig.below };

    ghost kept = { λ rig then. R.kept rig.below then.below };

    ghost keeping = { record {
      still = λ rig. R.keeping.still rig.below;
      on = λ rig then last p q. R.keeping.on rig.below then.below last.below p q;
    } };

    ghost few = { λ rig. R.few rig.below };

    fn missing(&self, set: &Facts) -> Facts {
        self.below.missing(set)
    }

    fn left(&self) -> u16 {
        self.below.left()
    }

    fn perform(&mut self, needs: &Facts, adds: &Facts, deletes: &Facts) -> Result<(), RigFault> {
        self.below.perform(needs, adds, deletes)?;
        let _ = self.seen.push(standing(&self.below));
        Ok(())
    }
}
