// The task and the plan of the lines read so far, and one record more, if it may follow those before it.
ghost use Rattle.std.specs.Prelude.{◌≡◌, ℕ, ◌<◌, ◌≤◌, List, MatchResult};
ghost use Rattle.text.specs.Fields.{IsList};
ghost use Rattle.book.specs.Joining.{Holds, Joins};
ghost use Rattle.orders.specs.Changes.{Change};
ghost use Rattle.records.specs.Lines.{Deed, Line, Proper, ProperChange, ProperDeed};
ghost use Rattle.records.specs.Lines.Line.{fact as fact_line, act as act_line, start as start_line, goal as goal_line, step as step_line, edit as edit_line};
ghost use Rattle.records.specs.Records.{ActSays, EditSays, Says};
ghost use Rattle.book.specs.Stages.{rank_of};
ghost use Rattle.book.specs.Tasks.{Describes, Has};
ghost use Rattle.book.specs.Weeks.{DeedFits, Known, no_week};

use crate::entries::{is_short, known_facts};
use crate::fault::TurnFault;
use crate::stage::Stage;
use records::record::{Act, Edit, Record, Side};
use sets::list::ArrayVec;
use task::{Action, Facts, Plan, Task};

/// What is loaded so far, and which lines may follow.
#[derive(Drop)]
pub struct Loader {
    pub stage: Stage,
    pub task: Task,
    pub plan: Plan,
}

impl Loader {
    /// Nothing is loaded, and a fact may follow.
    pub fn new() -> Self
        ensures week { Holds no_week result }
        ensures stage { rank_of result.stage ≡ 0 }
    {
        Loader {
            stage: Stage::Facts,
            task: Task::new(),
            plan: ArrayVec::new(0),
        }
    }

    /// One record more; a record that may not follow those before it is refused.
    pub fn accept(&mut self, next: Record<'_>) -> Result<(), TurnFault>
        ensures { (l : Line) → Proper l → Says next.entry l → Joins self.old l result self.new }
    {
        match next {
            Record::Fact(_) => self.fact(),
            Record::Act(act) => self.act(act),
            Record::Set(Side::Start, text) => self.start(text),
            Record::Set(Side::Goal, text) => self.goal(text),
            Record::Step(action) => self.step(action),
            Record::Edit(edit) => self.edit(edit),
        }
    }

    /// The text ends here, which it may from the goal line on.
    pub fn end(&self) -> Result<(), TurnFault>
        ensures { MatchResult result (λ _. 3 ≤ rank_of self.now.stage) (λ _. rank_of self.now.stage < 3) }
    {
        if self.stage < Stage::Steps {
            return Err(TurnFault::End);
        }
        Ok(())
    }

    fn fact(&mut self) -> Result<(), TurnFault>
        ensures { (name : List ℕ) → Joins self.old (fact_line name) result self.new }
    {
        if self.stage > Stage::Facts {
            return Err(TurnFault::Sequence);
        }
        self.task.add_fact()?;
        Ok(())
    }

    fn act(&mut self, act: Act<'_>) -> Result<(), TurnFault>
        ensures { (d : Deed) → ProperDeed d → ActSays act.entry d → Joins self.old (act_line d) result self.new }
    {
        if self.stage > Stage::Acts {
            return Err(TurnFault::Sequence);
        }
        let action = self.action(act)?;
        self.task.add_action(action)?;
        self.stage = Stage::Acts;
        Ok(())
    }

    // The action of the line, if its price is not too high and its sets name only facts of the task.
    fn action(&self, act: Act<'_>) -> Result<Action, TurnFault>
        ensures { (d : Deed) → ProperDeed d → ActSays act.entry d → MatchResult result
            (λ a. DeedFits self.now.task.facts d × Describes d a)
            (λ _. DeedFits self.now.task.facts d → ⊥) }
    {
        let needs = self.facts(act.needs)?;
        let adds = self.facts(act.adds)?;
        let deletes = self.facts(act.deletes)?;
        Action::new(needs, adds, deletes, act.price).ok_or(TurnFault::Price)
    }

    fn facts(&self, text: &[u8]) -> Result<Facts, TurnFault>
        ensures { (set : List ℕ) → IsList text.now set → MatchResult result
            (λ s. Known self.now.task.facts set × Has s set)
            (λ _. Known self.now.task.facts set → ⊥) }
    {
        known_facts(text, &self.task).ok_or(TurnFault::Unknown)
    }

    fn start(&mut self, text: &[u8]) -> Result<(), TurnFault>
        ensures { (set : List ℕ) → IsList text.now set → Joins self.old (start_line set) result self.new }
    {
        if self.stage > Stage::Acts {
            return Err(TurnFault::Sequence);
        }
        self.task.start = self.facts(text)?;
        self.stage = Stage::Start;
        Ok(())
    }

    fn goal(&mut self, text: &[u8]) -> Result<(), TurnFault>
        ensures { (set : List ℕ) → IsList text.now set → Joins self.old (goal_line set) result self.new }
    {
        if self.stage != Stage::Start {
            return Err(TurnFault::Sequence);
        }
        self.task.goal = self.facts(text)?;
        self.stage = Stage::Steps;
        Ok(())
    }

    fn step(&mut self, action: u32) -> Result<(), TurnFault>
        ensures { Joins self.old (step_line action) result self.new }
    {
        if self.stage != Stage::Steps {
            return Err(TurnFault::Sequence);
        }
        self.task.action(action).ok_or(TurnFault::Unknown)?;
        self.plan.push(action).map_err(|_| TurnFault::Full)
    }

    fn edit(&mut self, edit: Edit<'_>) -> Result<(), TurnFault>
        ensures { (c : Change) → ProperChange c → EditSays edit.entry c → Joins self.old (edit_line c) result self.new }
    {
        if self.stage < Stage::Steps {
            return Err(TurnFault::Sequence);
        }
        if matches!(edit, Edit::Replace(_, _, list) if !is_short(list)) {
            return Err(TurnFault::Full);
        }
        self.stage = Stage::Edits;
        Ok(())
    }
}
