// Swap: the parts of two neighbours change places.
ghost use Rattle.std.specs.Prelude.{◌≡◌, ℕ, ◌-◌, ◌<◌, ◌≤◌, false, ◌&&◌, length, MatchOption, nat_lt};
ghost use Rattle.std.specs.List.{slice_get};
ghost use Rattle.edits.specs.Swaps.{NoNeighbours, Swaps};
ghost use Rattle.orders.specs.Edits.{Neighbours, comes, covers, swapped};
ghost use Rattle.sets.specs.Contents.{contents};
ghost use Rattle.sets.specs.Member.{member};
ghost use Rattle.sheet.specs.Rows.{in_row};
ghost use Rattle.sheet.specs.Sheets.{actions, outline};

use sets::bits::BitSet;
use shaping::EditFault;
use sheet::{Relation, Sheet, Steps};

// Two runs of a sheet's positions that change places: from `first` on and ahead of `second`, and from there to `last`.
// They are the parts of two neighbours; the other ghost fields follow, and are held for the sums and places below.
#[derive(Clone, Copy)]
struct Runs<'s> {
    sheet: &'s Sheet,
    first: usize,
    second: usize,
    last: usize,
    ghost parts: { Neighbours (outline sheet.now) first second last },
    ghost ahead: { first < second },
    ghost behind: { second ≤ last },
    ghost positions: { last < length (actions sheet.now) },
    ghost room: { last < 128 },
}

impl<'s> Runs<'s> {
    // The parts of `k - 1` and `k` against each other.
    fn of(sheet: &'s Sheet, k: usize) -> Option<Runs<'s>>
        ensures { MatchOption result
            (NoNeighbours (outline sheet.now) k)
            (λ runs. (runs.sheet.now ≡ sheet.now) × (runs.second ≡ k)) }
    {
        let before = k.checked_sub(1)?;
        let (first, _) = sheet.part(before, k)?;
        let (_, last) = sheet.part(k, before)?;
        Some(Runs {
            sheet,
            first,
            second: k,
            last,
        })
    }

    // Where what stands at `x` afterwards comes from.
    fn source(&self, x: usize) -> usize
        ensures { result ≡ comes self.now.first self.now.second self.now.last x }
    {
        let length = self.last + 1 - self.second;
        if x < self.first || self.last < x {
            x
        } else if x < self.first + length {
            x + (self.second - self.first)
        } else {
            x - length
        }
    }

    // The positions that come from one in `set`.
    fn carried(&self, set: &BitSet<2>) -> BitSet<2>
        ensures { (x : ℕ) → member result.words x ≡ member set.now.words (comes self.now.first self.now.second self.now.last x) }
    {
        BitSet::below_where(128, |x| set.has(self.source(x)))
    }

    // The last positions with which a run from `c` on has both runs.
    fn covering(&self, c: usize) -> BitSet<2>
        ensures { (d : ℕ) → member result.words d ≡ (covers c d self.now.first self.now.last && nat_lt d 128) }
    {
        if self.first < c {
            return BitSet::empty();
        }
        BitSet::range(self.last, 128)
    }

    // The last positions of the blocks that begin at `c` afterwards: a block with both runs stays, and any other goes along.
    fn moved_ends(&self, c: usize) -> BitSet<2>
        ensures { (d : ℕ) → member result.words d ≡ (swapped (outline self.now.sheet.now) self.now.first self.now.second self.now.last).block c d }
    {
        let from = self.source(c);
        let moving = self.sheet.blocks.row(from).minus(&self.covering(from));
        let both = self.covering(c);
        let staying = self.sheet.blocks.row(c).intersection(&both);
        self.carried(&moving).minus(&both).union(&staying)
    }

    fn moved_blocks(&self) -> Relation
        ensures { (c d : ℕ) → in_row result.rows c d ≡ (swapped (outline self.now.sheet.now) self.now.first self.now.second self.now.last).block c d }
    {
        Relation::by_rows(|c| self.moved_ends(c))
    }

    // The positions that `i` is tied before afterwards.
    fn moved_behind(&self, i: usize) -> BitSet<2>
        ensures { (j : ℕ) → member result.words j ≡ (swapped (outline self.now.sheet.now) self.now.first self.now.second self.now.last).tied i j }
    {
        self.carried(&self.sheet.behind.row(self.source(i)))
    }

    fn moved_ties(&self) -> Relation
        ensures { (i j : ℕ) → in_row result.rows i j ≡ (swapped (outline self.now.sheet.now) self.now.first self.now.second self.now.last).tied i j }
    {
        Relation::by_rows(|i| self.moved_behind(i))
    }

    fn moved_steps(&self) -> Steps
        ensures { (x : ℕ) → slice_get (contents result) x ≡ slice_get (actions self.now.sheet.now) (comes self.now.first self.now.second self.now.last x) }
    {
        let steps = self.sheet.actions();
        let left = &steps[self.first..self.second];
        let turned = steps[self.second..self.last + 1].iter().chain(left);
        Steps::collect(
            0,
            steps[..self.first]
                .iter()
                .chain(turned)
                .chain(&steps[self.last + 1..])
                .copied(),
        )
    }

    // The sheet with the runs in each other's place.
    fn swapped_sheet(&self) -> Sheet
        requires { (outline self.now.sheet.now).tied (self.now.second - 1) self.now.second ≡ false }
        ensures steps { (x : ℕ) → slice_get (actions result) x ≡ slice_get (actions self.now.sheet.now) (comes self.now.first self.now.second self.now.last x) }
        ensures order { outline result ≡ swapped (outline self.now.sheet.now) self.now.first self.now.second self.now.last }
    {
        Sheet {
            steps: self.moved_steps(),
            behind: self.moved_ties(),
            blocks: self.moved_blocks(),
        }
    }
}

/// Makes the parts of `k - 1` and `k` change places, with their blocks and ties. Refused with `Position` unless both are
/// positions, and with `Tie` where `k - 1` is tied before `k`.
pub fn swap(sheet: &mut Sheet, k: usize) -> Result<(), EditFault>
    ensures { Swaps sheet.old k result sheet.new }
{
    let runs = Runs::of(sheet, k).ok_or(EditFault::Position)?;
    if sheet.is_tied(k - 1, k) {
        return Err(EditFault::Tie);
    }
    *sheet = runs.swapped_sheet();
    Ok(())
}
