// Edits carried out one after another.
ghost use Rattle.std.specs.Prelude.{map};
ghost use Rattle.edits.specs.Applying.{change_of};
ghost use Rattle.whole_week.specs.Week.{Edits};

use edits::{Edit, apply};
use sheet::Sheet;
use task::{Tariff, Task};

// Carries out the edits, each on the sheet that the one before it left, and says what accepted ones save in all. A
// refused one leaves the sheet as it was.
pub(crate) fn apply_all<T: Tariff>(
    sheet: &mut Sheet,
    task: &Task,
    tariff: &T,
    edits: &[Edit<'_>],
) -> u32
    ensures { Edits (T.Tariff.prices tariff.now) task.now sheet.old (map change_of edits.now) result sheet.new }
{
    let mut saved = 0;
    for edit in edits {
        saved += apply(sheet, task, tariff, *edit).unwrap_or(0);
    }
    saved
}
