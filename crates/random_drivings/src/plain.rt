// Runs and rigs kept a second time, as plain lists and numbers.
use crate::holding::{Act, Answer};
use crate::refusal::Refusal;
use crate::seen::Seen;
use comparing::{MOST_STEPS, Model, PlainFacts, PlainTask, Run};
use sets::bits::BitSet;
use sets::list::ArrayVec;

// The facts that stand, and how many steps are left.
#[derive(Clone, Copy)]
pub struct PlainRig {
    pub facts: PlainFacts,
    pub left: u16,
}

// The positions that are done stand in the order in which they were done.
#[derive(Clone, Copy)]
pub struct PlainRun<'a> {
    task: &'a PlainTask,
    model: &'a Model,
    taken: Option<usize>,
    done: ArrayVec<usize, MOST_STEPS>,
}

// What the rules answer, and what the slip of the call bears then.
#[derive(Clone, Copy)]
pub struct Ruling {
    outcome: Result<(), Refusal>,
    borne: Option<usize>,
}

impl Ruling {
    pub fn is(&self, answer: &Answer) -> bool {
        let is_outcome = match (self.outcome, answer.outcome) {
            (Ok(()), Ok(())) => true,
            (Err(refusal), Err(fault)) => refusal.is(&fault),
            _ => false,
        };
        is_outcome && self.borne == answer.borne
    }
}

impl PlainRig {
    // Performs the action of the step at `p`.
    fn perform(&mut self, task: &PlainTask, p: usize, action: u32) -> Result<(), Refusal> {
        let missing = task.needs(Some(action)).without(self.facts);
        if let Some(fact) = missing.lowest() {
            return Err(Refusal::missing(p, fact));
        }
        self.left = self.left.checked_sub(1).ok_or(Refusal::no_step_left(p))?;
        self.facts = task.performed(action, self.facts);
        Ok(())
    }
}

impl<'a> PlainRun<'a> {
    pub fn open(task: &'a PlainTask, model: &'a Model) -> Self {
        PlainRun {
            task,
            model,
            taken: None,
            done: ArrayVec::new(0),
        }
    }

    pub fn taken(&self) -> Option<usize> {
        self.taken
    }

    pub fn steps(&self) -> usize {
        self.model.steps()
    }

    fn is_done(&self, p: usize) -> bool {
        self.done.as_slice().contains(&p)
    }

    // Whether some but not all positions of the block are done.
    fn is_entered(&self, block: &Run) -> bool {
        let is_some = (block.first..=block.last).any(|p| self.is_done(p));
        is_some && !(block.first..=block.last).all(|p| self.is_done(p))
    }

    // Whether all that is tied before `p` is done, and every block that is entered has it.
    fn is_next(&self, p: usize) -> bool {
        let mut ties = self.model.ties().iter();
        let mut blocks = self.model.blocks().iter();
        ties.all(|&(i, j)| j != p || self.is_done(i))
            && blocks.all(|block| block.has(p) || !self.is_entered(block))
    }

    pub fn is_open(&self, p: usize) -> bool {
        self.taken.is_none() && p < self.steps() && !self.is_done(p) && self.is_next(p)
    }

    pub fn is_finished(&self) -> bool {
        (0..self.steps()).all(|p| self.is_done(p))
    }

    // What can be seen of it, where its slip bears what it has taken.
    pub fn seen(&self) -> Seen {
        let open = BitSet::below_where(self.steps(), |p| self.is_open(p));
        Seen {
            taken: self.taken,
            borne: self.taken,
            done: BitSet::below_where(self.steps(), |p| self.is_done(p)),
            open,
            open_positions: open,
            has_far: false,
            is_finished: self.is_finished(),
        }
    }

    pub fn take(&mut self, p: usize) -> Ruling {
        let outcome = if p >= self.steps() {
            Err(Refusal::no_position())
        } else if self.is_open(p) {
            self.taken = Some(p);
            Ok(())
        } else {
            Err(Refusal::not_open())
        };
        Ruling {
            outcome,
            borne: outcome.ok().map(|_| p),
        }
    }

    // Asks by a slip that bears this position.
    pub fn ask(&mut self, act: Act, slip: Option<usize>, rig: &mut PlainRig) -> Ruling {
        let outcome = match act {
            Act::Done => self.done(slip, rig),
            Act::PutBack => self.put_back(slip),
        };
        Ruling {
            outcome,
            borne: slip.filter(|_| outcome.is_err()),
        }
    }

    // The position that the slip bears and that is taken.
    fn held(&self, slip: Option<usize>) -> Result<usize, Refusal> {
        slip.filter(|p| self.taken == Some(*p))
            .ok_or(Refusal::no_slip())
    }

    // The action of the step at `p`.
    fn action(&self, p: usize) -> Result<u32, Refusal> {
        let action = self.model.actions().get(p).copied();
        action
            .filter(|action| self.task.knows(&[*action]).is_ok())
            .ok_or(Refusal::unknown_action())
    }

    fn done(&mut self, slip: Option<usize>, rig: &mut PlainRig) -> Result<(), Refusal> {
        let p = self.held(slip)?;
        let action = self.action(p)?;
        rig.perform(self.task, p, action)?;
        self.taken = None;
        let _ = self.done.push(p);
        Ok(())
    }

    fn put_back(&mut self, slip: Option<usize>) -> Result<(), Refusal> {
        self.held(slip)?;
        self.taken = None;
        Ok(())
    }
}
