// The parts of positions against each other.
ghost use Rattle.std.specs.Prelude.{◌≡◌, ℕ, ◌<◌, ◌≤◌, not, ◌&&◌, ◌⊎◌, MatchOption, ◌≢◌, nat_le, nat_lt};
ghost use Rattle.orders.specs.Check.{inside, leads, together};
ghost use Rattle.sets.specs.Member.{member};
ghost use Rattle.sheet.specs.Masks.{AreForced, IsPart};
ghost use Rattle.sheet.specs.Sheets.{outline};

use super::Sheet;
use sets::bits::BitSet;

impl Sheet {
    // Positions are asked about two by two, here and below: a type for such a pair would be taken apart at once.

    /// The first and last position of the part of `i` against `j`: of the largest step or block that has `i` and not `j`.
    /// None unless both are positions and not the same.
    pub fn part(&self, i: usize, j: usize) -> Option<(usize, usize)>
        ensures { MatchOption result
            (((outline self.now).size ≤ i) ⊎ (((outline self.now).size ≤ j) ⊎ (i ≡ j)))
            (λ part. (i < (outline self.now).size) × (j < (outline self.now).size) × (i ≢ j)
            × IsPart (outline self.now) i j part.0 part.1) }
    {
        let n = self.steps();
        if i >= n || j >= n || i == j {
            return None;
        }
        Some(self.span(i, j))
    }

    // The same for a position `i` and any other number `j`. A `find_map` would make the pair in its closure, and is no plainer.
    fn span(&self, i: usize, j: usize) -> (usize, usize)
        requires { (i < (outline self.now).size) × ((i ≢ j)) }
        ensures part { IsPart (outline self.now) i j result.0 result.1 }
        ensures room { result.1 < 128 }
    {
        let (low, high) = limits(i, j);
        let reaching = BitSet::range(i, high);
        for a in low..i + 1 {
            if let Some(b) = self.blocks.row(a).intersection(&reaching).highest() {
                return (a, b);
            }
        }
        (i, i)
    }

    /// The positions of the part of `i` against `j`.
    pub fn part_mask(&self, i: usize, j: usize) -> BitSet<2>
        ensures { (x : ℕ) → member result.words x ≡ (together (outline self.now) x i j && nat_lt x (outline self.now).size) }
    {
        if i >= self.steps() || i == j {
            return BitSet::empty();
        }
        let (first, last) = self.span(i, j);
        BitSet::range(first, last + 1)
    }

    /// The positions tied before `p`: all of them for the place after the last step.
    pub fn ahead(&self, p: usize) -> BitSet<2>
        ensures { (x : ℕ) → member result.words x ≡ leads (outline self.now) x p }
    {
        let n = self.steps();
        if p == n {
            return BitSet::below(n);
        }
        BitSet::below_where(n, |x| self.is_tied(x, p))
    }

    // The positions that must come between `d` and `p` where `d` comes ahead of `p`; `ahead` has those tied before `p`.
    pub(crate) fn forced(&self, d: usize, p: usize, ahead: &BitSet<2>) -> BitSet<2>
        ensures { AreForced (outline self.now) d p (member ahead.now.words) (member result.words) }
    {
        let behind = self.behind.row(d).union(&self.part_mask(p, d));
        behind.intersection(&self.part_mask(d, p).union(ahead))
    }
}

// A run that has `i` lacks `j` just where it begins at the first of the limits or behind, and ends ahead of the second.
fn limits(i: usize, j: usize) -> (usize, usize)
    requires { i ≢ j }
    ensures { (a b : ℕ) → a ≤ i → i ≤ b → b < 128 → (nat_le result.0 a && nat_lt b result.1) ≡ not (inside a b j) }
{
    if j < i { (j + 1, 128) } else { (0, j) }
}
