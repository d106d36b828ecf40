// Sheets made of the positions of another.
ghost use Rattle.std.specs.Iterator.{IsFinite};

use crate::lists::{MOST_STEPS, Pairs, Run, Runs, pairs_where};
use crate::model::Model;
use sets::list::ArrayVec;

// Entry x is the old position whose ties and blocks the new position x has.
#[derive(Clone, Copy)]
pub(crate) struct Sources {
    positions: ArrayVec<usize, MOST_STEPS>,
}

impl Sources {
    pub(crate) fn of<I: Iterator<Item = usize>>(positions: I) -> Self
        requires can { I.can_next positions }
        requires finite { IsFinite (I.remaining positions) }
    {
        Sources {
            positions: ArrayVec::collect(0, positions),
        }
    }

    // New positions with one source are tied in their order.
    pub(crate) fn ties(&self, model: &Model) -> Pairs {
        let positions = self.positions;
        pairs_where(positions.len(), |(x, y)| {
            match (positions.get(x), positions.get(y)) {
                (Some(i), Some(j)) => model.is_tied(i, j) || i == j && x < y,
                _ => false,
            }
        })
    }

    // The first and the last of the positions that come from the block.
    fn block(&self, block: &Run) -> Run {
        let from = |i: &usize| block.has(*i);
        let positions = self.positions.as_slice();
        Run {
            first: positions.iter().position(from).unwrap_or(positions.len()),
            last: positions.iter().rposition(from).unwrap_or(0),
        }
    }

    pub(crate) fn blocks(&self, blocks: &[Run]) -> Runs {
        ArrayVec::collect(Run::of(0), blocks.iter().map(|block| self.block(block)))
    }

    // The same steps in another order, with their ties and blocks.
    pub(crate) fn moved(&self, model: &Model) -> Model {
        let positions = self.positions.as_slice().iter();
        Model {
            actions: ArrayVec::collect(0, positions.filter_map(|i| model.actions.get(*i))),
            ties: self.ties(model),
            blocks: self.blocks(model.blocks()),
        }
    }
}
