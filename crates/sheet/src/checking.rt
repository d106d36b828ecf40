// The check: whether in every running order each step finds the facts that it needs, and the goal is reached.
ghost use Rattle.std.specs.Iterator.{AlwaysYields, IsFinite};
ghost use Rattle.std.specs.Prelude.{◌≡◌, ℕ, ◌<◌, ◌&&◌, List, MatchResult};
ghost use Rattle.orders.specs.Check.{leads, missing, some_below, taken_by, takes as takes_down};
ghost use Rattle.orders.specs.Facts.{Good, needed as needed_there};
ghost use Rattle.sets.specs.Member.{member};
ghost use Rattle.sheet.specs.Masks.{IsTable};
ghost use Rattle.sheet.specs.Rows.{in_row};
ghost use Rattle.sheet.specs.Sheets.{actions, outline};
ghost use Rattle.sheet.specs.Verdicts.{Checks, ChecksActions, LowestWanting, effects as effects_under};
ghost use Rattle.sheet.specs.declared.fault.SheetFault.TheVariants.{WantingFact};

use crate::fault::SheetFault;
use crate::rows::{filled, row};
use crate::sheet::Sheet;
use sets::bits::BitSet;
use task::{Action, Facts, Task};

// A sheet's steps under a task.
#[derive(Clone, Copy)]
struct Effects<'t, 's> {
    task: &'t Task,
    sheet: &'s Sheet,
}

impl Effects<'_, '_> {
    // The action of the step at `p`, one that does nothing where there is none.
    fn step(&self, p: usize) -> Action
        ensures needs { (f : ℕ) → member result.needs.words f ≡ (effects_under self.now.task.now self.now.sheet.now).needs p f }
        ensures adds { (f : ℕ) → member result.adds.words f ≡ (effects_under self.now.task.now self.now.sheet.now).adds p f }
        ensures deletes { (f : ℕ) → member result.deletes.words f ≡ (effects_under self.now.task.now self.now.sheet.now).deletes p f }
    {
        self.sheet
            .action(p)
            .and_then(|number| self.task.action(number))
            .unwrap_or(Action::idle())
    }

    fn added(&self, p: usize) -> Facts
        ensures { (f : ℕ) → member result.words f ≡ (effects_under self.now.task.now self.now.sheet.now).adds p f }
    {
        self.step(p).adds
    }

    // What the step at `p` takes down: deletes, and does not add.
    fn taken_down(&self, p: usize) -> Facts
        ensures { (f : ℕ) → member result.words f ≡ takes_down (effects_under self.now.task.now self.now.sheet.now) p f }
    {
        let action = self.step(p);
        action.deletes.minus(&action.adds)
    }

    // The facts that are needed at place `p`.
    fn needed(&self, p: usize) -> Facts
        ensures { (f : ℕ) → member result.words f
            ≡ needed_there (outline self.now.sheet.now) (effects_under self.now.task.now self.now.sheet.now) p f }
    {
        if p == self.sheet.steps() {
            return self.task.goal;
        }
        self.step(p).needs
    }
}

// The facts that are added at one of the positions below `n`. By a `for`: a
// `filter` and a `fold` would be two closures for one loop.
fn supplied(adds: &[Facts], positions: &BitSet<2>, n: usize) -> Facts
    ensures { (f : ℕ) → member result.words f ≡ some_below n (λ x. in_row adds.now x f && member positions.now.words x) }
{
    let mut supplied = Facts::empty();
    for x in 0..n {
        if positions.has(x) {
            supplied = supplied.union(&row(adds, x));
        }
    }
    supplied
}

// What each step adds, and what it takes down. Two tables and not one of pairs, since `row` and its law then serve both.
#[derive(Drop)]
struct Setting<'t, 's> {
    effects: Effects<'t, 's>,
    adds: [Facts; 128],
    takes: [Facts; 128],
    ghost added: { IsTable adds (effects_under effects.task.now effects.sheet.now).adds },
    ghost taken: { IsTable takes (takes_down (effects_under effects.task.now effects.sheet.now)) },
}

impl<'t, 's> Setting<'t, 's> {
    fn of(effects: &Effects<'t, 's>) -> Self
        ensures { result.effects ≡ effects.now }
    {
        let steps = effects.sheet.steps();
        Setting {
            effects: *effects,
            adds: filled(Facts::empty(), steps, |p| effects.added(p)),
            takes: filled(Facts::empty(), steps, |p| effects.taken_down(p)),
        }
    }

    // The facts of `needs` that the step at `d` takes down, and that nothing then brings back to `p` in some running order.
    fn lost(&self, d: usize, p: usize, needs: &Facts, ahead: &BitSet<2>) -> Facts
        requires { (d < (outline self.now.effects.sheet.now).size)
            × (((x : ℕ) → member ahead.now.words x ≡ leads (outline self.now.effects.sheet.now) x p)) }
        ensures { (f : ℕ) → member result.words f ≡ (member needs.now.words f
            && taken_by (outline self.now.effects.sheet.now) (effects_under self.now.effects.task.now self.now.effects.sheet.now) p f d) }
    {
        let sheet = self.effects.sheet;
        let taken = needs.intersection(&row(&self.takes, d));
        if taken.is_empty() || d == p || sheet.is_tied(p, d) {
            return Facts::empty();
        }
        let forced = sheet.forced(d, p, ahead);
        taken.minus(&supplied(&self.adds, &forced, sheet.steps()))
    }

    // The facts that place `p` is wanting. By a `for`: each turn calls `lost`, which asks for a position, and in a fold the
    // closure would have to ask for it too.
    fn wanting_at(&self, p: usize) -> Facts
        ensures { (f : ℕ) → member result.words f
            ≡ missing (outline self.now.effects.sheet.now) (effects_under self.now.effects.task.now self.now.effects.sheet.now) p f }
    {
        let needs = self.effects.needed(p);
        if needs.is_empty() {
            return needs;
        }
        let n = self.effects.sheet.steps();
        let ahead = self.effects.sheet.ahead(p);
        let brought = self
            .effects
            .task
            .start
            .union(&supplied(&self.adds, &ahead, n));
        let mut wanting = needs.minus(&brought);
        for d in 0..n {
            wanting = wanting.union(&self.lost(d, p, &needs, &ahead));
        }
        wanting
    }

    // Refuses the lowest place that is wanting anything, with the lowest fact that it is wanting.
    fn check_places(&self) -> Result<(), SheetFault>
        ensures { MatchResult result
            (λ _. Good (outline self.now.effects.sheet.now) (effects_under self.now.effects.task.now self.now.effects.sheet.now))
            (λ fault. (place : ℕ) × ((fact : ℕ) × (fault ≡ WantingFact place fact)
            × LowestWanting (outline self.now.effects.sheet.now) (effects_under self.now.effects.task.now self.now.effects.sheet.now) place fact)) }
    {
        // Loops left by a label, which the project asks for: they name the place and the fact in the order of the rule.
        'found: {
            for place in 0..self.effects.sheet.steps() + 1 {
                let wanting = self.wanting_at(place);
                for fact in 0..Task::MOST_FACTS {
                    if wanting.has(fact) {
                        break 'found Err(SheetFault::WantingFact { place, fact });
                    }
                }
            }
            Ok(())
        }
    }
}

// Refuses the first of the numbers that is none of the task's actions, and asks for none behind it.
fn check_numbers<I: Iterator<Item = u32>>(task: &Task, mut numbers: I) -> Result<(), SheetFault>
    requires can { I.can_next numbers }
    requires finite { IsFinite (I.remaining numbers) }
    ensures { (all : List ℕ) → AlwaysYields I.next_gives (λ x. x) numbers all → ChecksActions task.now all result }
{
    numbers
        .find(|number| task.action(*number).is_none())
        .map_or(Ok(()), |number| Err(SheetFault::UnknownAction(number)))
}

/// Refuses the first of the numbers that is none of the task's actions.
pub fn check_actions(task: &Task, numbers: &[u32]) -> Result<(), SheetFault>
    ensures { ChecksActions task.now numbers.now result }
{
    check_numbers(task, numbers.iter().copied())
}

/// The same for the actions of a sheet's steps.
pub fn check_steps(task: &Task, sheet: &Sheet) -> Result<(), SheetFault>
    ensures { ChecksActions task.now (actions sheet.now) result }
{
    check_numbers(task, sheet.actions().iter().copied().map(u32::from))
}

/// Refuses a sheet with an action that the task lacks, and then one that is wanting a fact.
pub fn check(task: &Task, sheet: &Sheet) -> Result<(), SheetFault>
    ensures { Checks task.now sheet.now result }
{
    check_steps(task, sheet)?;
    Setting::of(&Effects { task, sheet }).check_places()
}
