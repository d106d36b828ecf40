// Group: a run of positions becomes a block.
ghost use Rattle.std.specs.Prelude.{◌≡◌, ℕ, MatchBool};
ghost use Rattle.shaping.specs.Answers.{Crossed, Groups};
ghost use Rattle.orders.specs.Edits.{CanGroup, grouped, tied_behind};
ghost use Rattle.sets.specs.Member.{member};
ghost use Rattle.sheet.specs.Rows.{in_row};
ghost use Rattle.sheet.specs.Sheets.{actions, outline};

use crate::fault::EditFault;
use crate::run::Run;
use sets::bits::BitSet;
use sheet::{Relation, Sheet};

impl Run<'_> {
    // Whether some block crosses the run.
    fn is_crossed(&self) -> bool
        ensures { MatchBool result (Crossed (outline self.now.sheet.now) self.now.first self.now.last) (CanGroup (outline self.now.sheet.now) self.now.first self.now.last) }
    {
        (0..128).any(|c| self.sheet.blocks.row(c).meets(&self.crossing_ends(c)))
    }

    // The positions outside the run that are tied behind some position of it.
    fn tied_behind(&self) -> BitSet<2>
        ensures { (x : ℕ) → member result.words x ≡ tied_behind (outline self.now.sheet.now) self.now.first self.now.last x }
    {
        (self.first..self.last + 1)
            .fold(
                BitSet::empty(),
                |behind, y| behind.union(&self.sheet.behind.row(y)),
            )
            .minus(&self.positions())
    }

    // What `x` is tied before once the run is a block; `behind` are the positions tied behind the block.
    fn joined(&self, behind: &BitSet<2>, x: usize) -> BitSet<2>
        requires { (y : ℕ) → member behind.now.words y ≡ tied_behind (outline self.now.sheet.now) self.now.first self.now.last y }
        ensures { (y : ℕ) → member result.words y ≡ (grouped (outline self.now.sheet.now) self.now.first self.now.last).tied x y }
    {
        let row = self.sheet.behind.row(x);
        let block = self.positions();
        if block.has(x) {
            row.union(behind)
        } else if row.meets(&block) {
            row.union(&block.union(behind))
        } else {
            row
        }
    }

    // The ties once the run is a block.
    fn joined_ties(&self) -> Relation
        requires { CanGroup (outline self.now.sheet.now) self.now.first self.now.last }
        ensures { (x y : ℕ) → in_row result.rows x y ≡ (grouped (outline self.now.sheet.now) self.now.first self.now.last).tied x y }
    {
        let behind = self.tied_behind();
        Relation::by_rows(|x| self.joined(&behind, x))
    }

    // The sheet with the run as one more block, and the ties that this takes.
    fn grouped_sheet(&self) -> Sheet
        requires { CanGroup (outline self.now.sheet.now) self.now.first self.now.last }
        ensures steps { actions result ≡ actions self.now.sheet.now }
        ensures order { outline result ≡ grouped (outline self.now.sheet.now) self.now.first self.now.last }
    {
        let mut ends = self.sheet.blocks.row(self.first);
        ends.insert(self.last);
        Sheet {
            steps: self.sheet.steps,
            behind: self.joined_ties(),
            blocks: self.sheet.blocks.with_row(self.first, &ends),
        }
    }
}

/// Makes a block of `a` to `b`, and adds the ties that this takes, no more. Refused with `Position` unless `a` and `b` are
/// positions in that order, and with `Block` where they are a block already or some block crosses them.
pub fn group(sheet: &mut Sheet, a: usize, b: usize) -> Result<(), EditFault>
    ensures { Groups sheet.old a b result sheet.new }
{
    let run = Run::of(sheet, a, b).ok_or(EditFault::Position)?;
    if sheet.is_block(a, b) || run.is_crossed() {
        return Err(EditFault::Block);
    }
    *sheet = run.grouped_sheet();
    Ok(())
}
