// The edits that the check may refuse.
ghost use Rattle.shaping.specs.Answers.{Adopts};

use crate::fault::EditFault;
use sheet::{Sheet, check};
use task::Task;

/// Puts the sheet asked for in place of `sheet` where it passes the check. Sheet and task stay two, here and in the edits that
/// end so: the one is changed, and the other read.
pub fn adopt(sheet: &mut Sheet, task: &Task, asked: Sheet) -> Result<(), EditFault>
    ensures { Adopts task.now sheet.old asked result sheet.new }
{
    check(task, &asked)?;
    *sheet = asked;
    Ok(())
}
