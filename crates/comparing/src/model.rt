// A sheet kept a second time as plain lists.
use crate::lists::{Actions, Pair, Pairs, Run, Runs, pairs, pairs_where};
use sets::list::ArrayVec;
use sheet::{Relation, Sheet};

// The action numbers of the steps, the ties (i, j) and the blocks.
#[derive(Clone, Copy)]
pub struct Model {
    pub(crate) actions: Actions,
    pub(crate) ties: Pairs,
    pub(crate) blocks: Runs,
}

// How many pairs the relation has.
fn size_of(relation: &Relation) -> usize {
    (0..128).fold(0, |size: usize, i| {
        size.saturating_add(relation.row(i).count())
    })
}

impl Model {
    // The plan with all ties and no block.
    pub(crate) fn laid(plan: &[u32]) -> Self {
        Model {
            actions: ArrayVec::collect(0, plan.iter().copied()),
            ties: pairs_where(plan.len(), |(i, j)| i < j),
            blocks: Runs::new(Run::of(0)),
        }
    }

    // What the sheet says of itself, asked question by question: a `From` would name that no better.
    pub fn read(sheet: &Sheet) -> Self {
        let n = sheet.steps();
        let blocks = pairs_where(n, |(a, b)| sheet.is_block(a, b));
        Model {
            actions: ArrayVec::collect(0, sheet.actions().iter().map(|number| u32::from(*number))),
            ties: pairs_where(n, |(i, j)| sheet.is_tied(i, j)),
            blocks: ArrayVec::collect(
                Run::of(0),
                blocks.as_slice().iter().map(|pair| Run::from(*pair)),
            ),
        }
    }

    // Whether the sheet has these steps, ties and blocks, and no others, in none of its rows.
    pub(crate) fn is_sheet(&self, sheet: &Sheet) -> bool {
        self.has_steps_of(sheet)
            && pairs(self.steps()).as_slice().iter().all(|&(i, j)| {
                sheet.is_tied(i, j) == self.is_tied(i, j)
                    && sheet.is_block(i, j) == self.is_block(&Run::from((i, j)))
            })
            && size_of(&sheet.behind) == self.ties.len()
            && size_of(&sheet.blocks) == self.blocks.len()
    }

    fn has_steps_of(&self, sheet: &Sheet) -> bool {
        sheet
            .actions()
            .iter()
            .map(|number| u32::from(*number))
            .eq(self.actions().iter().copied())
    }

    // Whether the sheet gives the same part of every position against every other.
    pub(crate) fn has_parts_of(&self, sheet: &Sheet) -> bool {
        let n = self.steps();
        pairs(n.saturating_add(1)).as_slice().iter().all(|&(i, j)| {
            let are_apart = i < n && j < n && i != j;
            sheet.part(i, j).map(Run::from) == are_apart.then(|| self.part(i, j))
        })
    }

    pub fn actions(&self) -> &[u32] {
        self.actions.as_slice()
    }

    pub fn ties(&self) -> &[Pair] {
        self.ties.as_slice()
    }

    pub fn blocks(&self) -> &[Run] {
        self.blocks.as_slice()
    }

    // The blocks that pass.
    pub(crate) fn blocks_where<F: Fn(&Run) -> bool>(&self, passes: F) -> Runs
        requires { F.IsAlwaysCallable passes }
    {
        let passing = self.blocks().iter().copied().filter(|block| passes(block));
        ArrayVec::collect(Run::of(0), passing)
    }

    pub fn steps(&self) -> usize {
        self.actions.len()
    }

    pub(crate) fn is_tied(&self, i: usize, j: usize) -> bool {
        self.ties().contains(&(i, j))
    }

    pub(crate) fn is_block(&self, run: &Run) -> bool {
        self.blocks().contains(run)
    }

    // The largest step or block that has `i` and not `j`.
    pub(crate) fn part(&self, i: usize, j: usize) -> Run {
        let blocks = self.blocks().iter().copied();
        blocks
            .filter(|block| block.has(i) && !block.has(j))
            .max_by_key(|block| block.reach())
            .unwrap_or(Run::of(i))
    }
}
