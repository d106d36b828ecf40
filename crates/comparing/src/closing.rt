// The ties that the rules want, added until none is wanting.
use crate::lists::{Run, pairs_where};
use crate::model::Model;

impl Model {
    // Whether `i` is tied before some position of the run.
    fn is_before_some(&self, i: usize, run: &Run) -> bool {
        self.ties().iter().any(|&(x, y)| x == i && run.has(y))
    }

    // Whether some position of the run is tied before `j`.
    fn is_some_before(&self, run: &Run, j: usize) -> bool {
        self.ties().iter().any(|&(x, y)| run.has(x) && y == j)
    }

    // `i` and `j` are no `Pair`, here and in what follows: each is also asked about beside other positions, as `y` here.
    fn is_tied_through(&self, i: usize, j: usize) -> bool {
        self.ties()
            .iter()
            .any(|&(x, y)| x == i && self.is_tied(y, j))
    }

    // Whether the block wants the tie: one end is outside, and tied to another position of the block.
    fn is_wanted_by(&self, block: &Run, i: usize, j: usize) -> bool {
        match (block.has(i), block.has(j)) {
            (false, true) => self.is_before_some(i, block),
            (true, false) => self.is_some_before(block, j),
            _ => false,
        }
    }

    // Whether it has the tie, or its ties want it.
    fn has_or_wants(&self, i: usize, j: usize) -> bool {
        self.is_tied(i, j)
            || self.is_tied_through(i, j)
            || self
                .blocks()
                .iter()
                .any(|block| self.is_wanted_by(block, i, j))
    }

    // With the smallest set of ties that has these and keeps the rules.
    pub(crate) fn closed(mut self) -> Model {
        let n = self.steps();
        for _ in 0..n.saturating_mul(n) {
            let ties = pairs_where(n, |(i, j)| self.has_or_wants(i, j));
            if ties.len() == self.ties.len() {
                break;
            }
            self.ties = ties;
        }
        self
    }
}
