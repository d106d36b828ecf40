// Any of the five edits.
ghost use Rattle.std.specs.Prelude.{◌≡◌};
ghost use Rattle.edits.specs.Applying.{Applies, change_of, with_no_saving};

use crate::edit::Edit;
use crate::replacing::replace;
use crate::swapping::swap;
use shaping::{EditFault, group, loosen, ungroup};
use sheet::Sheet;
use task::{Tariff, Task};

// Only a replacement saves anything.
fn with_no_saving(answer: Result<(), EditFault>) -> Result<u32, EditFault>
    ensures { result ≡ with_no_saving answer }
{
    answer.map(|()| 0)
}

/// Carries the edit out, and says what it saves; or refuses it, and the sheet stays as it was.
pub fn apply<T: Tariff>(
    sheet: &mut Sheet,
    task: &Task,
    tariff: &T,
    edit: Edit<'_>,
) -> Result<u32, EditFault>
    ensures { Applies (T.Tariff.prices tariff.now) task.now sheet.old (change_of edit.entry) result sheet.new }
{
    match edit {
        Edit::Swap(k) => with_no_saving(swap(sheet, k)),
        Edit::Group(a, b) => with_no_saving(group(sheet, a, b)),
        Edit::Ungroup(a, b) => with_no_saving(ungroup(sheet, task, a, b)),
        Edit::Loosen(i, j) => with_no_saving(loosen(sheet, task, i, j)),
        Edit::Replace(a, b, list) => replace(sheet, task, tariff, a, b, list),
    }
}
