// The rules of the edits, followed on plain lists.
use crate::lists::Run;
use crate::model::Model;
use crate::moving::Sources;
use crate::tasks::PlainTariff;
use crate::verdicts::Judged;
use edits::Edit;
use sets::list::ArrayVec;
use shaping::EditFault;

// The sheet afterwards, and what it saves.
#[derive(Clone, Copy)]
pub(crate) struct Done {
    pub(crate) model: Model,
    pub(crate) saving: u32,
}

// Only a replacement saves anything.
impl From<Model> for Done {
    fn from(model: Model) -> Self {
        Done { model, saving: 0 }
    }
}

// A sheet, and what it is asked under.
#[derive(Clone, Copy)]
pub(crate) struct Asked<'a> {
    pub(crate) model: &'a Model,
    pub(crate) tariff: PlainTariff<'a>,
}

impl Asked<'_> {
    // What the edit is to do.
    pub(crate) fn ruled(&self, edit: Edit<'_>) -> Result<Done, EditFault> {
        match edit {
            Edit::Swap(k) => self.swapped(k).map(Done::from),
            Edit::Group(a, b) => self.grouped(Run::from((a, b))).map(Done::from),
            Edit::Ungroup(a, b) => self.ungrouped(Run::from((a, b))).map(Done::from),
            Edit::Loosen(i, j) => self.loosened(i, j).map(Done::from),
            Edit::Replace(a, b, list) => self.replaced(Run::from((a, b)), list),
        }
    }

    // Refuses what are no positions in that order.
    fn positions(&self, run: &Run) -> Result<(), EditFault> {
        if run.first < run.last && run.last < self.model.steps() {
            Ok(())
        } else {
            Err(EditFault::Position)
        }
    }

    // The sheet asked for, unless it is wanting something.
    fn good(&self, model: Model) -> Result<Model, EditFault> {
        Judged::under(self.tariff.task, &model).verdict()?;
        Ok(model)
    }

    fn swapped(&self, k: usize) -> Result<Model, EditFault> {
        let before = k.saturating_sub(1);
        self.positions(&Run::from((before, k)))?;
        if self.model.is_tied(before, k) {
            return Err(EditFault::Tie);
        }
        let first = self.model.part(before, k).first;
        let end = self.model.part(k, before).last.saturating_add(1);
        let front = (0..first).chain(k..end);
        let sources = Sources::of(front.chain(first..k).chain(end..self.model.steps()));
        Ok(sources.moved(self.model))
    }

    // Whether the run is a block, or overlaps one with neither inside the other.
    fn is_no_block_to_be(&self, run: &Run) -> bool {
        self.model.blocks().iter().any(|block| {
            let is_nested = run.is_within(block) || block.is_within(run);
            run == block || run.overlaps(block) && !is_nested
        })
    }

    fn grouped(&self, run: Run) -> Result<Model, EditFault> {
        self.positions(&run)?;
        if self.is_no_block_to_be(&run) {
            return Err(EditFault::Block);
        }
        let mut asked = *self.model;
        let _ = asked.blocks.push(run);
        Ok(asked.closed())
    }

    fn ungrouped(&self, run: Run) -> Result<Model, EditFault> {
        self.positions(&run)?;
        if !self.model.is_block(&run) {
            return Err(EditFault::Block);
        }
        let mut asked = *self.model;
        asked.blocks = self.model.blocks_where(|block| *block != run);
        self.good(asked)
    }

    // Whether a position outside both parts is tied behind `i` and before `j`.
    fn is_between(&self, i: usize, j: usize, first: &Run, second: &Run) -> bool {
        (0..self.model.steps()).any(|x| {
            let is_outside = !first.has(x) && !second.has(x);
            is_outside && self.model.is_tied(i, x) && self.model.is_tied(x, j)
        })
    }

    fn loosened(&self, i: usize, j: usize) -> Result<Model, EditFault> {
        self.positions(&Run::from((i, j)))?;
        if !self.model.is_tied(i, j) {
            return Err(EditFault::Tie);
        }
        let first = self.model.part(i, j);
        let second = self.model.part(j, i);
        if self.is_between(i, j, &first, &second) {
            return Err(EditFault::Between);
        }
        let ties = self.model.ties().iter().copied();
        let kept = ties.filter(|&(x, y)| !(first.has(x) && second.has(y)));
        let mut asked = *self.model;
        asked.ties = ArrayVec::collect((0, 0), kept);
        self.good(asked)
    }

    // The steps of the run have the list in their place. The new steps have the ties and the outer blocks of the first of
    // the old ones.
    fn with_list(&self, run: &Run, list: &[u32]) -> Model {
        let end = run.last.saturating_add(1);
        let old = self.model.actions();
        let front = old.iter().take(run.first);
        let actions = front.chain(list.iter()).chain(old.iter().skip(end));
        let new = list.iter().map(|_| run.first);
        let sources = Sources::of((0..run.first).chain(new).chain(end..self.model.steps()));
        let outer = self.model.blocks_where(|block| !block.is_within(run));
        let mut blocks = sources.blocks(outer.as_slice());
        if list.len() >= 2 {
            let last = run.first.saturating_add(list.len()).saturating_sub(1);
            let _ = blocks.push(Run {
                first: run.first,
                last,
            });
        }
        Model {
            actions: ArrayVec::collect(0, actions.copied()),
            ties: sources.ties(self.model),
            blocks,
        }
    }

    // The actions of the run; refuses what is no run of positions.
    fn actions_of(&self, run: &Run) -> Result<&[u32], EditFault> {
        let actions = self.model.actions();
        let found = actions.get(run.first..=run.last);
        // Without a position there is none to replace: the slice from 3 to 2 is empty.
        found
            .filter(|found| !found.is_empty())
            .ok_or(EditFault::Position)
    }

    // These sheets are too small for a list that is too long.
    fn replaced(&self, run: Run, list: &[u32]) -> Result<Done, EditFault> {
        let old = self.actions_of(&run)?;
        if run.first < run.last && !self.model.is_block(&run) {
            return Err(EditFault::Block);
        }
        if list.is_empty() {
            return Err(EditFault::Empty);
        }
        self.tariff.task.knows(self.model.actions())?;
        self.tariff.task.knows(list)?;
        let old = self.tariff.price(old);
        let new = self.tariff.price(list);
        if new >= old {
            return Err(EditFault::NotCheaper);
        }
        Ok(Done {
            model: self.good(self.with_list(&run, list))?,
            saving: old.saturating_sub(new),
        })
    }
}
