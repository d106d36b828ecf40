// A task: its facts, its actions, where it starts and what it is to reach.
ghost use Rattle.std.specs.Prelude.{◌≡◌, ℕ, ◌+◌, ◌<◌, ◌≤◌, false, [], ◌∷◌, ◌++◌, length, MatchResult};
ghost use Rattle.std.specs.List.{slice_get};
ghost use Rattle.sets.specs.Contents.{contents};
ghost use Rattle.sets.specs.Member.{member};

use crate::actions::{Action, Facts};
use sets::list::ArrayVec;

/// A plan has at most so many steps, and a list of actions so many entries.
pub const LONGEST_LIST: usize = 128;

/// The actions to perform, first to last, by their numbers.
pub type Plan = ArrayVec<u32, LONGEST_LIST>;

/// No room for one more.
#[derive(Clone, Copy, Debug, PartialEq, Eq)]
pub struct Full;

/// The facts are the numbers below `facts`; the number of an action is its place among the actions.
#[derive(Drop)]
pub struct Task {
    pub facts: usize,
    pub actions: ArrayVec<Action, 128>,
    pub start: Facts,
    pub goal: Facts,
    ghost few: { facts ≤ 64 },
}

impl Task {
    /// No task has more facts.
    pub const MOST_FACTS: usize = 64;

    /// No facts, no actions, nothing at the start and nothing to reach.
    pub fn new() -> Self
        ensures facts { result.facts ≡ 0 }
        ensures actions { contents result.actions ≡ [] }
        ensures start { (f : ℕ) → member result.start.words f ≡ false }
        ensures goal { (f : ℕ) → member result.goal.words f ≡ false }
    {
        let none = Facts::empty();
        Task {
            facts: 0,
            actions: ArrayVec::new(Action::idle()),
            start: none,
            goal: none,
        }
    }

    /// The action of that number; None where the task has no such action.
    pub fn action(&self, number: u32) -> Option<Action>
        ensures { result ≡ slice_get (contents self.now.actions) number }
    {
        self.actions.get(number as usize)
    }

    /// One more fact, unless there are 64.
    pub fn add_fact(&mut self) -> Result<(), Full>
        ensures facts { MatchResult result
            (λ _. (self.old.facts < 64) × (self.new.facts ≡ self.old.facts + 1))
            (λ _. (self.old.facts ≡ 64) × (self.new.facts ≡ 64)) }
        ensures actions { self.new.actions ≡ self.old.actions }
        ensures start { self.new.start ≡ self.old.start }
        ensures goal { self.new.goal ≡ self.old.goal }
    {
        if self.facts >= Self::MOST_FACTS {
            return Err(Full);
        }
        self.facts += 1;
        Ok(())
    }

    /// One more action, behind the others, unless there are 128.
    pub fn add_action(&mut self, action: Action) -> Result<(), Full>
        ensures actions { MatchResult result
            (λ _. (length (contents self.old.actions) < 128) × (contents self.new.actions ≡ contents self.old.actions ++ action ∷ []))
            (λ _. (length (contents self.old.actions) ≡ 128) × (self.new.actions ≡ self.old.actions)) }
        ensures facts { self.new.facts ≡ self.old.facts }
        ensures start { self.new.start ≡ self.old.start }
        ensures goal { self.new.goal ≡ self.old.goal }
    {
        self.actions.push(action).map_err(|_| Full)
    }
}
