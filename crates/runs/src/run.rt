// Runs over a sheet.
ghost use Rattle.std.specs.Prelude.{◌≡◌, ℕ, ◌<◌, ◌≤◌, true, false, None, MatchBool};
ghost use Rattle.driving.specs.Calls.{Does, Open, PutsBack, Takes, opening};
ghost use Rattle.driving.specs.Meanings.{Meaning};
ghost use Rattle.orders.specs.Sheets.{Inside};
ghost use Rattle.runs.specs.Faults.{told};
ghost use Rattle.runs.specs.Moves.{borne};
ghost use Rattle.runs.specs.Views.{Lets, Next, Performed, is_done, moment_of, position, taken, work, work_of};
ghost use Rattle.sets.specs.Sets.{has};
ghost use Rattle.sheet.specs.Sheets.{actions};
ghost use Rattle.sheet.specs.Verdicts.{action_at};

use crate::fault::{At, RunFault};
use crate::slip::Slip;
use crate::state::{Call, State};
use rigs::Rig;
use sets::bits::BitSet;
use sheet::Sheet;
use task::{Action, Task};

/// A driving of a sheet under a task: which positions are done, and which one is taken, if any.
#[derive(Drop)]
pub struct Run<'a> {
    task: &'a Task,
    sheet: &'a Sheet,
    state: State,
    done: BitSet<2>,
}

impl<'a> Run<'a> {
    /// A run with nothing taken and nothing done.
    pub fn open(task: &'a Task, sheet: &'a Sheet) -> Run<'a>
        ensures over { work_of result ≡ work task.now sheet.now }
        ensures opens { (rig : Meaning) → moment_of result rig ≡ opening rig }
    {
        Run {
            task,
            sheet,
            state: State::Hand,
            done: BitSet::empty(),
        }
    }

    /// The position that is taken.
    pub fn taken(&self) -> Option<usize>
        ensures { result ≡ taken self.now }
    {
        match self.state {
            State::Hand => None,
            State::Taken(p) => Some(p),
        }
    }

    /// Whether `p` is done.
    pub fn is_done(&self, p: usize) -> bool
        ensures { result ≡ is_done self.now p }
    {
        self.done.has(p)
    }

    /// Whether all positions are done.
    pub fn is_finished(&self) -> bool
        ensures { MatchBool result
            ((p : ℕ) → p < (work_of self.now).order.size → is_done self.now p ≡ true)
            ((p : ℕ) × (p < (work_of self.now).order.size) × (is_done self.now p ≡ false)) }
    {
        self.done.contains_all(&BitSet::below(self.sheet.steps()))
    }

    /// Whether `p` is open.
    pub fn is_open(&self, p: usize) -> bool
        ensures { (rig : Meaning) → MatchBool result
            (Open (work_of self.now).order (moment_of self.now rig) p)
            (Open (work_of self.now).order (moment_of self.now rig) p → ⊥) }
    {
        p < self.sheet.steps() && self.taken().is_none() && self.is_next(p)
    }

    /// The positions that are open.
    pub fn open_positions(&self) -> BitSet<2>
        ensures { (rig : Meaning) (p : ℕ) → MatchBool (has result p)
            (Open (work_of self.now).order (moment_of self.now rig) p)
            (Open (work_of self.now).order (moment_of self.now rig) p → ⊥) }
    {
        BitSet::below_where(self.sheet.steps(), |p| self.is_open(p))
    }

    // Whether `p` is undone, due, and barred by no block.
    fn is_next(&self, p: usize) -> bool
        ensures { MatchBool result
            (Next (work_of self.now).order (is_done self.now) p)
            (Next (work_of self.now).order (is_done self.now) p → ⊥) }
    {
        !self.done.has(p) && self.is_due(p) && self.is_let_in(p)
    }

    // Whether all positions tied before `p` are done.
    fn is_due(&self, p: usize) -> bool
        ensures { MatchBool result
            ((i : ℕ) → (work_of self.now).order.tied i p ≡ true → is_done self.now i ≡ true)
            ((i : ℕ) × ((work_of self.now).order.tied i p ≡ true) × (is_done self.now i ≡ false)) }
    {
        let before = BitSet::below_where(self.sheet.steps(), |i| self.sheet.is_tied(i, p));
        self.done.contains_all(&before)
    }

    // Whether every block with some but not all positions done has `p`.
    fn is_let_in(&self, p: usize) -> bool
        ensures { MatchBool result
            ((a b : ℕ) → Lets (work_of self.now).order (is_done self.now) p a b)
            (((a b : ℕ) → Lets (work_of self.now).order (is_done self.now) p a b) → ⊥) }
    {
        for a in 0..self.sheet.steps() {
            if self.is_barred_from(p, a) {
                return false;
            }
        }
        true
    }

    // Whether a block that begins at `a` bars `p`.
    fn is_barred_from(&self, p: usize, a: usize) -> bool
        requires { a < (work_of self.now).order.size }
        ensures { MatchBool result
            (((b : ℕ) → Lets (work_of self.now).order (is_done self.now) p a b) → ⊥)
            ((b : ℕ) → Lets (work_of self.now).order (is_done self.now) p a b) }
    {
        // Most positions begin none.
        if self.sheet.blocks.row(a).is_empty() {
            return false;
        }
        for b in a..self.sheet.steps() {
            if self.is_barred(p, a, b) {
                return true;
            }
        }
        false
    }

    // Whether the positions `a` to `b` are a block with some but not all positions done, and without `p`.
    fn is_barred(&self, p: usize, a: usize, b: usize) -> bool
        requires { (a ≤ b) × (b < (work_of self.now).order.size) }
        ensures { MatchBool result
            (Lets (work_of self.now).order (is_done self.now) p a b → ⊥)
            (Lets (work_of self.now).order (is_done self.now) p a b) }
    {
        let block = BitSet::range(a, b + 1);
        if !self.sheet.is_block(a, b) || block.has(p) {
            return false;
        }
        self.done.meets(&block) && !self.done.contains_all(&block)
    }

    /// Takes the position `p`, and gives a slip that bears it; or refuses, and gives a blank one.
    pub fn take(&mut self, p: usize) -> (Result<(), RunFault>, Slip)
        ensures over { work_of self.new ≡ work_of self.old }
        ensures slip { position result.1 ≡ borne p result.0 }
        ensures takes { (rig : Meaning) → Takes (work_of self.old) (moment_of self.old rig) p
            (told result.0) (position result.1) (moment_of self.new rig) }
    {
        let answer = self.taken_up(p);
        (answer, Slip::given(p, answer))
    }

    // Takes it, or says why not.
    fn taken_up(&mut self, p: usize) -> Result<(), RunFault>
        ensures over { work_of self.new ≡ work_of self.old }
        ensures takes { (rig : Meaning) → Takes (work_of self.old) (moment_of self.old rig) p
            (told result) (borne p result) (moment_of self.new rig) }
    {
        if p >= self.sheet.steps() {
            return Err(RunFault::NoPosition);
        }
        let (next, _) = self.state.after(Call::Take(p))?;
        if !self.is_next(p) {
            return Err(RunFault::NotOpen);
        }
        self.state = next;
        Ok(())
    }

    /// Has the rig perform the action of the position that the slip bears: it is done then, and the slip blank. Or
    /// refuses, and changes nothing.
    pub fn done<R: Rig>(&mut self, slip: &mut Slip, rig: &mut R) -> Result<(), RunFault>
        ensures over { work_of self.new ≡ work_of self.old }
        ensures keeps { R.kept rig.old rig.new }
        ensures does { Does (work_of self.old) (moment_of self.old (R.meaning rig.old)) (position slip.old)
            (told result) (position slip.new) (moment_of self.new (R.meaning rig.new)) }
    {
        let (next, position) = self.state.after(Call::Done(slip.position()))?;
        self.perform(position, rig)?;
        self.state = next;
        self.done.insert(position);
        slip.blank_it();
        Ok(())
    }

    // Has the rig perform the action of the step at `position`.
    fn perform<R: Rig>(&self, position: usize, rig: &mut R) -> Result<(), RunFault>
        ensures keeps { R.kept rig.old rig.new }
        ensures performs { Performed (work_of self.now) position (R.meaning rig.old) (told result) (R.meaning rig.new) }
    {
        let action = self.action(position).ok_or(RunFault::UnknownAction)?;
        rig.perform(&action.needs, &action.adds, &action.deletes)
            .map_err(|fault| At { position, fault })?;
        Ok(())
    }

    // The action of the step at `p`.
    fn action(&self, p: usize) -> Option<Action>
        ensures { result ≡ action_at self.now.task.now (actions self.now.sheet.now) p }
    {
        self.task.action(self.sheet.action(p)?)
    }

    /// Puts the position that the slip bears back: nothing is taken then, and the slip is blank. Or refuses, and
    /// changes nothing.
    pub fn put_back(&mut self, slip: &mut Slip) -> Result<(), RunFault>
        ensures over { work_of self.new ≡ work_of self.old }
        ensures puts_back { (rig : Meaning) → PutsBack (moment_of self.old rig) (position slip.old)
            (told result) (position slip.new) (moment_of self.new rig) }
    {
        let (next, _) = self.state.after(Call::PutBack(slip.position()))?;
        self.state = next;
        slip.blank_it();
        Ok(())
    }
}
