// A rig that does a plan as it is laid.
ghost use Rattle.driver.specs.Ends.{DoesAsLaid, DoesWell};
ghost use Rattle.runs.specs.Views.{work};

use crate::stepping::step;
use rigs::Rig;
use runs::{Run, RunFault};
use sheet::Sheet;
use task::Task;

/// Takes and does the positions 0, 1 and so on, until all are done or one is refused, where it ends; what was done
/// before that remains done on the rig.
pub fn do_as_laid<R: Rig>(task: &Task, sheet: &Sheet, rig: &mut R) -> Result<(), RunFault>
    ensures keeps { R.kept rig.old rig.new }
    ensures as_laid { DoesAsLaid (work task.now sheet.now) (R.meaning rig.old) result (R.meaning rig.new) }
    ensures well { DoesWell (work task.now sheet.now) (R.meaning rig.old) result (R.meaning rig.new) }
{
    in_home_order(task, sheet, rig)
}

// The same, without what good sheets promise.
fn in_home_order<R: Rig>(task: &Task, sheet: &Sheet, rig: &mut R) -> Result<(), RunFault>
    ensures keeps { R.kept rig.old rig.new }
    ensures as_laid { DoesAsLaid (work task.now sheet.now) (R.meaning rig.old) result (R.meaning rig.new) }
{
    let mut run = Run::open(task, sheet);
    for p in 0..sheet.steps() {
        step(&mut run, rig, p)?;
    }
    Ok(())
}
