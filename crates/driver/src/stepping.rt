// One step taken and done.
ghost use Rattle.std.specs.Prelude.{◌≡◌};
ghost use Rattle.driving.specs.Calls.{TakesAndDoes};
ghost use Rattle.runs.specs.Faults.{told};
ghost use Rattle.runs.specs.Views.{moment_of, work_of};

use rigs::Rig;
use runs::{Run, RunFault};

/// Takes the position `p` and has the rig do its step. Where either is refused, with the number that `Run::take` or
/// `Run::done` gives, the run and the rig are as before: what was taken is put back.
pub fn step<R: Rig>(run: &mut Run<'_>, rig: &mut R, p: usize) -> Result<(), RunFault>
    ensures over { work_of run.new ≡ work_of run.old }
    ensures keeps { R.kept rig.old rig.new }
    ensures steps { TakesAndDoes (work_of run.old) (moment_of run.old (R.meaning rig.old)) p
        (told result) (moment_of run.new (R.meaning rig.new)) }
{
    let (answer, mut slip) = run.take(p);
    answer?;
    if let Err(fault) = run.done(&mut slip, rig) {
        let _ = run.put_back(&mut slip);
        return Err(fault);
    }
    Ok(())
}
