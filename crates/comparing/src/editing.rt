// Sheets edited at random, and each edit compared with what the rules say.
ghost use Rattle.std.specs.Prelude.{◌≡◌, ◌<◌, IfErr, IfOk};

use crate::differing::{Difference, Differs};
use crate::ends::{End, Ends, Kind};
use crate::facts::PlainFacts;
use crate::lists::MOST_STEPS;
use crate::model::Model;
use crate::random::Random;
use crate::rules::Asked;
use crate::tally::tallied;
use crate::tasks::{PlainTariff, PlainTask, Prices};
use crate::verdicts::Judged;
use edits::{Edit, apply};
use sets::list::ArrayVec;
use sheet::{Sheet, check, lay};
use task::{BookTariff, Tariff, Task, TouchTariff};

// Fewer loosenings than this come first on a sheet.
const LOOSENINGS: usize = 32;

// So many edits of all kinds follow.
const EDITS: usize = 14;

const MOST_EDITS: usize = LOOSENINGS - 1 + EDITS;

// How the edits of one sheet ended, first to last.
pub(crate) type Made = ArrayVec<End, MOST_EDITS>;

// The task that the edits are mostly asked under, and two like it.
#[derive(Clone, Copy)]
struct Tasks {
    own: PlainTask,
    easy: PlainTask,
    short: PlainTask,
}

impl Tasks {
    fn any<P: Fn(&mut Random) -> u32>(random: &mut Random, price: &P) -> Self
        requires { P.IsAlwaysCallable price.now }
    {
        let actions = random.below(5).saturating_add(3);
        let own = PlainTask::any(random, actions, price);
        Tasks {
            own,
            easy: own.without_needs(),
            short: own.shortened(actions.saturating_sub(2)),
        }
    }

    fn one(&self, random: &mut Random) -> &PlainTask {
        match random.below(8) {
            0 | 1 => &self.easy,
            2 => &self.short,
            _ => &self.own,
        }
    }
}

// A sheet, and the same as plain lists.
#[derive(Clone, Copy)]
struct Twin {
    sheet: Sheet,
    model: Model,
}

impl Twin {
    // Refuses two that are not one sheet.
    fn of(sheet: Sheet, model: Model) -> Result<Self, Differs> {
        model
            .is_sheet(&sheet)
            .then_some(Twin { sheet, model })
            .ok_or(Differs)
    }

    // None where the plan is refused, as it is to be.
    fn laid(task: &PlainTask, plan: &[u32]) -> Result<Option<Self>, Differs> {
        let model = Model::laid(plan);
        let verdict = Judged::under(task, &model).verdict();
        match (lay(&task.task(), plan), verdict) {
            (Ok(sheet), Ok(())) => Twin::of(sheet, model).map(Some),
            (Err(fault), Err(ruled)) if fault == ruled => Ok(None),
            _ => Err(Differs),
        }
    }

    // The sheet of a good plan if one is found soon, and else of one under the task without needs.
    fn first(random: &mut Random, tasks: &Tasks) -> Result<Self, Differs> {
        let len = random.below(12).min(5);
        for _ in 0..4 {
            let plan = random.list(tasks.own.actions(), len);
            if let Some(twin) = Twin::laid(&tasks.own, plan.as_slice())? {
                return Ok(twin);
            }
        }
        Twin::laid(&tasks.easy, &[0, 1, 2, 1])?.ok_or(Differs)
    }

    // Whether the price before is the price now and what was saved, and both are the sums of the steps' prices.
    // `plain`, `task` and `tariff` stay apart: this and `is_sound` take two of them each, and `edit` alone all three.
    fn balances<T: Tariff>(
        &self,
        before: &Self,
        plain: &PlainTariff<'_>,
        tariff: &T,
        saving: u32,
    ) -> bool {
        let old = before.sheet.price(tariff);
        let new = self.sheet.price(tariff);
        old == new.saturating_add(saving)
            && old == plain.price(before.model.actions())
            && new == plain.price(self.model.actions())
    }

    // Whether both are one sheet, and the check and the parts say what they are to say of it.
    fn is_sound(&self, plain: &PlainTask, task: &Task) -> bool {
        self.model.is_sheet(&self.sheet)
            && self.model.has_parts_of(&self.sheet)
            && check(task, &self.sheet) == Judged::under(plain, &self.model).verdict()
    }

    // Carries the edit out on both, and says how it ended.
    fn edit<T: Tariff>(
        &mut self,
        plain: PlainTariff<'_>,
        task: &Task,
        tariff: &T,
        edit: Edit<'_>,
    ) -> Result<End, Differs> {
        let before = *self;
        let asked = Asked {
            model: &before.model,
            tariff: plain,
        };
        let ruling = asked.ruled(edit);
        let answer = apply(&mut self.sheet, task, tariff, edit);
        if let Ok(done) = ruling {
            self.model = done.model;
        }
        let saving = answer.unwrap_or(0);
        let agrees = answer == ruling.map(|done| done.saving)
            && self.balances(&before, &plain, tariff, saving)
            && self.is_sound(plain.task, task);
        let number = answer.err().map(|fault| fault.number());
        agrees.then(|| End(Kind::of(edit), number)).ok_or(Differs)
    }
}

// A twin that is being edited, and how its edits ended so far.
#[derive(Drop)]
struct Session<'a> {
    random: &'a mut Random,
    twin: Twin,
    made: Made,
}

impl Session<'_> {
    // Asks for the edit under one of the tariffs.
    fn edit(&mut self, plain: &PlainTask, edit: Edit<'_>) -> Result<(), Differs> {
        let task = plain.task();
        let end = if self.random.once_in(2) {
            let prices = PlainTariff {
                task: plain,
                prices: Prices::Book,
            };
            self.twin
                .edit(prices, &task, &BookTariff { task: &task }, edit)?
        } else {
            let marked = PlainFacts::any(self.random);
            let prices = PlainTariff {
                task: plain,
                prices: Prices::Touch(marked),
            };
            let tariff = TouchTariff {
                task: &task,
                marked: marked.into(),
            };
            self.twin.edit(prices, &task, &tariff, edit)?
        };
        let _ = self.made.push(end);
        Ok(())
    }

    fn loosen_some(&mut self, task: &PlainTask) -> Result<(), Differs> {
        for _ in 0..self.random.below(LOOSENINGS) {
            let edit = self.random.loosening(&self.twin.model);
            self.edit(task, edit)?;
        }
        Ok(())
    }

    fn edit_some(&mut self, tasks: &Tasks) -> Result<(), Differs> {
        for _ in 0..EDITS {
            let task = tasks.one(self.random);
            let room = MOST_STEPS.saturating_sub(self.twin.model.steps());
            let len = self.random.below(room.saturating_add(2)).min(3);
            let list = self.random.list(task.actions(), len);
            let edit = self.random.edit(&self.twin.model, &list);
            self.edit(task, edit)?;
        }
        Ok(())
    }
}

// Edits one sheet many times. Many ties are loosened first, since a sheet with few ties has more to group and to swap.
fn edited<P: Fn(&mut Random) -> u32>(random: &mut Random, price: &P) -> Result<Made, Differs>
    requires { P.IsAlwaysCallable price.now }
{
    let tasks = Tasks::any(random, price);
    let twin = Twin::first(random, &tasks)?;
    let mut session = Session {
        random,
        twin,
        made: Made::new(End(Kind::Swap, None)),
    };
    session.loosen_some(&tasks.easy)?;
    session.edit_some(&tasks)?;
    Ok(session.made)
}

// Edits so many sheets, each under a task of its own; `price` draws the price of an action. Either all edits agree, or the
// sheet of one is named.
pub fn compare_edits<P: Fn(&mut Random) -> u32>(
    random: &mut Random,
    sheets: u32,
    price: P,
) -> Result<Ends, Difference>
    requires { P.IsAlwaysCallable price }
    ensures all { IfOk result (λ ends. ends.sheets ≡ sheets) }
    ensures one { IfErr result (λ difference. difference.sheet < sheets) }
{
    tallied(random, sheets, |random| edited(random, &price))
}
