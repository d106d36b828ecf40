// Laying a plan as a sheet.
ghost use Rattle.std.specs.Prelude.{◌≡◌, ℕ, ◌<◌, ◌≤◌, ◌&&◌, length, MatchResult, nat_lt, slice_index};
ghost use Rattle.sets.specs.Contents.{contents};
ghost use Rattle.sheet.specs.Rows.{in_row};
ghost use Rattle.sheet.specs.Sheets.{outline};
ghost use Rattle.sheet.specs.Verdicts.{AllKnown, FirstUnknown, Lays, in_a_row};
ghost use Rattle.sheet.specs.declared.fault.SheetFault.TheVariants.{UnknownAction};

use super::{Sheet, Steps};
use crate::checking::{check, check_actions};
use crate::fault::SheetFault;
use crate::relation::Relation;
use sets::bits::BitSet;
use task::{LONGEST_LIST, Task};

/// Refuses more than 128 steps, and then what the check refuses. The sheet has the plan's steps, all ties and no block.
pub fn lay(task: &Task, plan: &[u32]) -> Result<Sheet, SheetFault>
    ensures { Lays task.now plan.now result }
{
    if plan.len() > LONGEST_LIST {
        return Err(SheetFault::TooLong);
    }
    let steps = known_steps(task, plan)?;
    let sheet = in_order(steps);
    check(task, &sheet)?;
    Ok(sheet)
}

// The plan's action numbers, all of which the task has.
fn known_steps(task: &Task, plan: &[u32]) -> Result<Steps, SheetFault>
    requires { length plan.now ≤ 128 }
    ensures { MatchResult result
        (λ steps. (contents steps ≡ plan.now) × AllKnown task.now plan.now)
        (λ fault. ((number : ℕ) × (fault ≡ UnknownAction number) × FirstUnknown task.now plan.now number)) }
{
    check_actions(task, plan)?;
    Ok(Steps::collect(0, plan.iter().map(|number| *number as u8)))
}

// Each of `n` positions tied before all later ones.
fn all_ties(n: usize) -> Relation
    requires { n ≤ 128 }
    ensures { (i j : ℕ) → in_row result.rows i j ≡ (nat_lt i j && nat_lt j n) }
{
    Relation::by_first_rows(n, |i| BitSet::range(i + 1, n))
}

// Each step tied before all later ones.
fn in_order(steps: Steps) -> Sheet
    requires { (i : ℕ) → slice_index (contents steps) i < 128 }
    ensures { (result.steps ≡ steps) × (outline result ≡ in_a_row (length (contents steps))) }
{
    Sheet {
        steps,
        behind: all_ties(steps.len()),
        blocks: Relation::empty(),
    }
}
