// The edits under damage: other tasks, full sheets, numbers far out of range. Each is asked for, and its end is told.

#![tactic(auto)]

mod full;
mod small;
mod tasks;
mod telling;
mod week;

use full::rehearse_full_sheets;
use small::{rehearse_empty_sheet, rehearse_far_numbers, rehearse_lists, rehearse_nested_blocks};
use week::{rehearse_other_tasks, rehearse_week};

fn main(rt: HostRuntime) -> anyhow::Result<()> {
    rehearse_week(&rt)?;
    rehearse_other_tasks(&rt)?;
    rehearse_full_sheets(&rt)?;
    rehearse_far_numbers(&rt)?;
    rehearse_empty_sheet(&rt)?;
    rehearse_lists(&rt)?;
    rehearse_nested_blocks(&rt)
}
