// Ungroup: a block ends, and all ties stay.
ghost use Rattle.std.specs.Prelude.{◌≡◌};
ghost use Rattle.shaping.specs.Answers.{Ungroups};
ghost use Rattle.orders.specs.Edits.{ungrouped};
ghost use Rattle.sheet.specs.Sheets.{actions, outline};

use crate::checked::adopt;
use crate::fault::EditFault;
use crate::run::Run;
use sheet::Sheet;
use task::Task;

impl Run<'_> {
    // The sheet without the run as a block.
    fn ungrouped_sheet(&self) -> Sheet
        ensures steps { actions result ≡ actions self.now.sheet.now }
        ensures order { outline result ≡ ungrouped (outline self.now.sheet.now) self.now.first self.now.last }
    {
        let mut ends = self.sheet.blocks.row(self.first);
        ends.remove(self.last);
        Sheet {
            steps: self.sheet.steps,
            behind: self.sheet.behind,
            blocks: self.sheet.blocks.with_row(self.first, &ends),
        }
    }
}

/// Ends the block `a` to `b` and keeps all ties. Refused with `Position` unless `a` and `b` are positions in that order,
/// with `Block` unless they are a block, and then as the check refuses the sheet asked for.
pub fn ungroup(sheet: &mut Sheet, task: &Task, a: usize, b: usize) -> Result<(), EditFault>
    ensures { Ungroups task.now sheet.old a b result sheet.new }
{
    let run = Run::of(sheet, a, b).ok_or(EditFault::Position)?;
    if !sheet.is_block(a, b) {
        return Err(EditFault::Block);
    }
    let asked = run.ungrouped_sheet();
    adopt(sheet, task, asked)
}
