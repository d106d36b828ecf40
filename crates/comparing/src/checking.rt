// Sheets of many shapes, each compared with the list of its running orders.
ghost use Rattle.std.specs.Prelude.{◌≡◌, ◌<◌, IfErr, IfOk};

use crate::differing::{Difference, Differs};
use crate::model::Model;
use crate::random::Random;
use crate::shapes::{Shape, Shapes};
use crate::tally::tallied;
use crate::tasks::PlainTask;
use crate::verdicts::Judged;
use shaping::{group, loosen};
use sheet::{Sheet, check, lay};
use std::fmt;

const NUMBERS: [u32; 5] = [0, 1, 2, 3, 4];

// A laid plan, with blocks made and ties loosened at random under the task without needs; step i has action i.
pub fn shaped(random: &mut Random, task: &PlainTask, steps: usize) -> Result<Sheet, Differs> {
    let task = task.without_needs().task();
    let plan = NUMBERS.get(..steps).ok_or(Differs)?;
    let mut sheet = lay(&task, plan).map_err(|_| Differs)?;
    for _ in 0..random.below(24) {
        let a = random.below(steps);
        let b = random.below(steps);
        if random.once_in(6) {
            let _ = group(&mut sheet, a, b);
        } else {
            let _ = loosen(&mut sheet, &task, a, b);
        }
    }
    Ok(sheet)
}

// Compares one sheet; refused where the check says something else than the list of running orders.
// `random` and `price` stay two, here and where they are handed on: the one is changed, and the other called with it. That it
// can be called is what each call of a closure asks.
fn compared<P: Fn(&mut Random) -> u32>(random: &mut Random, price: &P) -> Result<Shape, Differs>
    requires { P.IsAlwaysCallable price.now }
{
    let steps = random.below(6);
    let task = PlainTask::any(random, steps, price);
    let sheet = shaped(random, &task, steps)?;
    let model = Model::read(&sheet);
    let judged = Judged::under(&task, &model);
    let verdict = judged.verdict();
    if check(&task.task(), &sheet) != verdict {
        return Err(Differs);
    }
    Ok(Shape {
        is_loose: judged.orders.all.len() > 1,
        is_grouped: !model.blocks.is_empty(),
        is_wanting: verdict.is_err(),
    })
}

// Compares so many sheets, each under a task of its own; `price` draws the price of an action. Either all of them agree,
// or one is named.
pub fn compare_checks<P: Fn(&mut Random) -> u32>(
    random: &mut Random,
    sheets: u32,
    price: P,
) -> Result<Shapes, Difference>
    requires { P.IsAlwaysCallable price }
    ensures all { IfOk result (λ shapes. shapes.sheets ≡ sheets) }
    ensures one { IfErr result (λ difference. difference.sheet < sheets) }
{
    tallied(random, sheets, |random| compared(random, &price))
}

// What was found, in the words of the programs.
#[derive(Clone, Copy)]
pub struct Findings(pub Result<Shapes, Difference>);

impl fmt::Display for Findings {
    fn fmt<W: fmt::Write>(&self, f: &mut fmt::Formatter<W>) -> fmt::Result {
        match self.0 {
            Ok(shapes) => write!(f, "{shapes}"),
            Err(difference) => write!(f, "the first difference is at {difference}"),
        }
    }
}
