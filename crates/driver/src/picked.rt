// A rig driven over a sheet by a closure that picks.
ghost use Rattle.std.specs.Fn.{CalledAt};
ghost use Rattle.driver.specs.Ends.{Ends, EndsWell};
ghost use Rattle.runs.specs.Views.{work};

use crate::stepping::step;
use rigs::Rig;
use runs::{Run, RunFault};
use sets::bits::BitSet;
use sheet::Sheet;
use task::Task;

/// Drives the rig over the sheet: while a position is undone, asks `choose` which of the open ones to take, and takes
/// and does it. Ends where all are done, or with the first refusal; what was done before that remains done on the
/// rig.
pub fn drive<R: Rig, C: FnMut(&BitSet<2>) -> usize>(
    task: &Task,
    sheet: &Sheet,
    rig: &mut R,
    choose: C,
) -> Result<(), RunFault>
    requires { C.IsAlwaysCallable choose }
    ensures keeps { R.kept rig.old rig.new }
    ensures ends { Ends (CalledAt C.FnMut) (work task.now sheet.now) (R.meaning rig.old) choose
        result (R.meaning rig.new) }
    ensures well { EndsWell (CalledAt C.FnMut) (work task.now sheet.now) (R.meaning rig.old) choose
        result (R.meaning rig.new) }
{
    as_picked(task, sheet, rig, choose)
}

// The same, without what good sheets promise.
fn as_picked<R: Rig, C: FnMut(&BitSet<2>) -> usize>(
    task: &Task,
    sheet: &Sheet,
    rig: &mut R,
    mut choose: C,
) -> Result<(), RunFault>
    requires { C.IsAlwaysCallable choose }
    ensures keeps { R.kept rig.old rig.new }
    ensures ends { Ends (CalledAt C.FnMut) (work task.now sheet.now) (R.meaning rig.old) choose
        result (R.meaning rig.new) }
{
    let mut run = Run::open(task, sheet);
    while !run.is_finished() {
        let p = choose(&run.open_positions());
        step(&mut run, rig, p)?;
    }
    Ok(())
}
