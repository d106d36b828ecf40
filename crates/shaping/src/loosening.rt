// Loosen: the ties from one part to another are dropped.
ghost use Rattle.std.specs.Prelude.{◌≡◌, ℕ, ◌<◌, ◌&&◌, MatchBool, nat_lt};
ghost use Rattle.shaping.specs.Answers.{Loosens, TiedBetween};
ghost use Rattle.orders.specs.Check.{together};
ghost use Rattle.orders.specs.Edits.{CanLoosen, loosened};
ghost use Rattle.sets.specs.Member.{member};
ghost use Rattle.sheet.specs.Rows.{in_row};
ghost use Rattle.sheet.specs.Sheets.{actions, outline};

use crate::checked::adopt;
use crate::fault::EditFault;
use sets::bits::BitSet;
use sheet::{Relation, Sheet};
use task::Task;

// The parts of `i` and `j` against each other.
#[derive(Clone, Copy)]
struct Parts<'s> {
    sheet: &'s Sheet,
    i: usize,
    j: usize,
    first: BitSet<2>,
    second: BitSet<2>,
    ghost part_of_i: { (x : ℕ) → member first.words x ≡ (together (outline sheet.now) x i j && nat_lt x (outline sheet.now).size) },
    ghost part_of_j: { (x : ℕ) → member second.words x ≡ (together (outline sheet.now) x j i && nat_lt x (outline sheet.now).size) },
}

impl<'s> Parts<'s> {
    fn of(sheet: &'s Sheet, i: usize, j: usize) -> Parts<'s>
        ensures { (result.sheet.now ≡ sheet.now) × (result.i ≡ i) × (result.j ≡ j) }
    {
        Parts {
            sheet,
            i,
            j,
            first: sheet.part_mask(i, j),
            second: sheet.part_mask(j, i),
        }
    }

    // Whether a position outside both is tied behind `i` and before `j`.
    fn is_tied_between(&self) -> bool
        requires { self.now.j < (outline self.now.sheet.now).size }
        ensures { MatchBool result (TiedBetween (outline self.now.sheet.now) self.now.i self.now.j) (CanLoosen (outline self.now.sheet.now) self.now.i self.now.j) }
    {
        let between = self
            .sheet
            .behind
            .row(self.i)
            .intersection(&self.sheet.ahead(self.j));
        !self.first.union(&self.second).contains_all(&between)
    }

    // The ties without those from the first part to the second.
    fn loosened_ties(&self) -> Relation
        ensures { (x y : ℕ) → in_row result.rows x y ≡ (loosened (outline self.now.sheet.now) self.now.i self.now.j).tied x y }
    {
        Relation::by_rows(|x| {
            let row = self.sheet.behind.row(x);
            if self.first.has(x) {
                row.minus(&self.second)
            } else {
                row
            }
        })
    }

    // The sheet without the ties from the first part to the second.
    fn loosened_sheet(&self) -> Sheet
        requires { CanLoosen (outline self.now.sheet.now) self.now.i self.now.j }
        ensures steps { actions result ≡ actions self.now.sheet.now }
        ensures order { outline result ≡ loosened (outline self.now.sheet.now) self.now.i self.now.j }
    {
        Sheet {
            steps: self.sheet.steps,
            behind: self.loosened_ties(),
            blocks: self.sheet.blocks,
        }
    }
}

/// Drops all ties from the part of `i` to the part of `j`. Refused with `Position` unless `i` and `j` are positions in that
/// order, with `Tie` unless `i` is tied before `j`, with `Between` where a position outside both parts is tied behind `i`
/// and before `j`, and then as the check refuses the sheet asked for.
pub fn loosen(sheet: &mut Sheet, task: &Task, i: usize, j: usize) -> Result<(), EditFault>
    ensures { Loosens task.now sheet.old i j result sheet.new }
{
    if i >= j || j >= sheet.steps() {
        return Err(EditFault::Position);
    }
    if !sheet.is_tied(i, j) {
        return Err(EditFault::Tie);
    }
    let parts = Parts::of(sheet, i, j);
    if parts.is_tied_between() {
        return Err(EditFault::Between);
    }
    let asked = parts.loosened_sheet();
    adopt(sheet, task, asked)
}
