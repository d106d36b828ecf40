// Edits and plans chosen at random, refused ones too.
use crate::lists::{Actions, Pair, Run};
use crate::model::Model;
use crate::random::Random;
use edits::Edit;

impl Random {
    // A position, or a number somewhat or far past the last one.
    fn position(&mut self, n: usize) -> usize {
        match self.below(40) {
            0 => usize::MAX,
            1 => u32::MAX as usize,
            2 => 128,
            3 => n,
            _ => self.below(n),
        }
    }

    // Two of them, mostly in order, and often neighbours.
    fn pair(&mut self, n: usize) -> Pair {
        let x = self.position(n);
        let y = self.position(n);
        match self.below(8) {
            0 => (x, y),
            1 | 2 => (x, x.saturating_add(1)),
            _ => (x.min(y), x.max(y)),
        }
    }

    // Mostly a block where there is one. `self` and `model` stay two, here and below: the one is changed, the other read.
    fn block(&mut self, model: &Model) -> Run {
        let index = self.below(model.blocks.len());
        if let Some(block) = model.blocks.get(index)
            && !self.once_in(4)
        {
            return block;
        }
        Run::from(self.pair(model.steps()))
    }

    fn block_or_step(&mut self, model: &Model) -> Run {
        let x = self.position(model.steps());
        if self.once_in(2) {
            return Run::of(x);
        }
        self.block(model)
    }

    pub(crate) fn loosening(&mut self, model: &Model) -> Edit<'static> {
        let (i, j) = self.pair(model.steps());
        Edit::Loosen(i, j)
    }

    pub(crate) fn edit<'a>(&mut self, model: &Model, list: &'a Actions) -> Edit<'a> {
        let n = model.steps();
        let (a, b) = self.pair(n);
        match self.below(20) {
            0..=3 => Edit::Swap(self.position(n)),
            4..=6 => Edit::Group(a, b),
            7..=9 => {
                let block = self.block(model);
                Edit::Ungroup(block.first, block.last)
            }
            10..=14 => Edit::Loosen(a, b),
            _ => {
                let run = self.block_or_step(model);
                Edit::Replace(run.first, run.last, list.as_slice())
            }
        }
    }

    // Numbers of actions, a few of which are unknown: the action after the last, or one far out.
    pub(crate) fn list(&mut self, actions: usize, len: usize) -> Actions {
        let mut list = Actions::new(0);
        for _ in 0..len {
            let number = match self.below(40) {
                0 => u32::MAX,
                1 => 255,
                2 => 128,
                3 => actions.min(127) as u32,
                _ => self.below(actions).min(127) as u32,
            };
            let _ = list.push(number);
        }
        list
    }
}
