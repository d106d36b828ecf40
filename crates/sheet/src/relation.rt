// Which positions are paired with which, as ties and blocks are.
ghost use Rattle.std.specs.Prelude.{◌≡◌, ℕ, ◌<◌, ◌≤◌, ◌&&◌, cond, false, length, ◌==◌, nat_lt};
ghost use Rattle.sets.specs.Member.{member};
ghost use Rattle.sets.specs.declared.bits.BitSet.{BitSet as Set};
ghost use Rattle.sheet.specs.Rows.{in_row};

use crate::rows::{filled, row};
use sets::bits::BitSet;

/// Row i has the positions that i is paired with.
#[derive(Clone, Copy, PartialEq, Eq)]
pub struct Relation {
    rows: [BitSet<2>; 128],
    ghost size: { length rows ≡ 128 },
}

impl Relation {
    /// No position is paired with any.
    pub fn empty() -> Self
        ensures { (i j : ℕ) → in_row result.rows i j ≡ false }
    {
        Relation {
            rows: [BitSet::empty(); 128],
        }
    }

    /// The relation whose row i is `row(i)`.
    pub fn by_rows<F: Fn(usize) -> BitSet<2>>(row: F) -> Self
        requires { (i : ℕ) → i < 128 → F.pre row i }
        ensures rows { (i : ℕ) → i < 128 → (set : Set 2) × F.post row i set × ((j : ℕ) → in_row result.rows i j ≡ member set.words j) }
        ensures past { (i j : ℕ) → 128 ≤ i → in_row result.rows i j ≡ false }
    {
        Relation::by_first_rows(128, row)
    }

    // The same for the rows below `count`; those behind them have nothing.
    pub(crate) fn by_first_rows<F: Fn(usize) -> BitSet<2>>(count: usize, row: F) -> Self
        requires few { count ≤ 128 }
        requires can { (i : ℕ) → i < count → F.pre row i }
        ensures rows { (i : ℕ) → i < count → (set : Set 2) × F.post row i set × ((j : ℕ) → in_row result.rows i j ≡ member set.words j) }
        ensures past { (i j : ℕ) → count ≤ i → in_row result.rows i j ≡ false }
    {
        Relation {
            rows: filled(BitSet::empty(), count, row),
        }
    }

    /// What `i` is paired with: nothing where it is no position.
    pub fn row(&self, i: usize) -> BitSet<2>
        ensures { (j : ℕ) → member result.words j ≡ in_row self.now.rows i j }
    {
        row(&self.rows, i)
    }

    /// Whether `i` is paired with `j`; a number that is no position is paired with none.
    pub fn has(&self, i: usize, j: usize) -> bool
        ensures { result ≡ in_row self.now.rows i j }
    {
        self.row(i).has(j)
    }

    /// The same with `set` in place of row `i`, if there is such a row.
    pub fn with_row(&self, i: usize, set: &BitSet<2>) -> Self
        ensures { (k j : ℕ) → in_row result.rows k j ≡ cond (k == i && nat_lt i 128) (member set.now.words j) (in_row self.now.rows k j) }
    {
        let mut rows = self.rows;
        if i < 128 {
            rows[i] = *set;
        }
        Relation { rows }
    }
}
