// A week carried out, on two rigs.
ghost use Rattle.std.specs.Prelude.{◌≡◌, Err, map, MatchResult};
ghost use Rattle.std.specs.Fn.{CalledAt};
ghost use Rattle.edits.specs.Applying.{change_of};
ghost use Rattle.sheet.specs.Verdicts.{Lays};
ghost use Rattle.whole_week.specs.DoesWeek.{DoesWeek};
ghost use Rattle.whole_week.specs.Week.{WholeWeek};

use crate::editing::apply_all;
use driver::{do_as_laid, drive};
use edits::Edit;
use rigs::Rig;
use runs::RunFault;
use sets::bits::BitSet;
use sheet::{Sheet, SheetFault, lay};
use task::{Tariff, Task};

/// What a week came to.
#[derive(Clone, Copy)]
pub struct WeekDone {
    /// The sheet that the edits left.
    pub sheet: Sheet,
    /// What the accepted edits save in all, by the tariff.
    pub saved: u32,
    /// How the first rig did the plan as laid: all of it, or the refusal that ended it.
    pub as_laid: Result<(), RunFault>,
    /// How the second rig was driven over the edited sheet: to its end, or to the refusal that ended it.
    pub as_edited: Result<(), RunFault>,
}

/// Lays the plan, has the `first` rig do it as laid, carries out the edits under the same task and tariff, refused
/// ones included, and drives the `second` rig over the sheet that they left, taking what `choose` picks of the open
/// positions. Refuses what `lay` refuses: 4 for more than 128 steps, 2 for an action that the task lacks, 3 for a
/// plan that is not good; no rig is touched then.
pub fn do_week<T: Tariff, R: Rig, S: Rig, C: FnMut(&BitSet<2>) -> usize>(
    task: &Task,
    plan: &[u32],
    edits: &[Edit<'_>],
    tariff: &T,
    first: &mut R,
    second: &mut S,
    choose: C,
) -> Result<WeekDone, SheetFault>
    requires { C.IsAlwaysCallable choose }
    ensures keeps_first { R.kept first.old first.new }
    ensures keeps_second { S.kept second.old second.new }
    ensures does { MatchResult result
        (λ week. DoesWeek (CalledAt C.FnMut) (T.Tariff.prices tariff.now) task.now plan.now (map change_of edits.now)
        (R.meaning first.old) (R.meaning first.new) choose (S.meaning second.old) (S.meaning second.new) week)
        (λ fault. Lays task.now plan.now (Err fault) × (first.new ≡ first.old) × (second.new ≡ second.old)) }
    ensures promise { WholeWeek R.meaning S.meaning (T.Tariff.prices tariff.now) }
{
    let laid = lay(task, plan)?;
    let as_laid = do_as_laid(task, &laid, first);
    let mut sheet = laid;
    let saved = apply_all(&mut sheet, task, tariff, edits);
    let as_edited = drive(task, &sheet, second, choose);
    Ok(WeekDone {
        sheet,
        saved,
        as_laid,
        as_edited,
    })
}
