// Small sheets driven in every order of their positions.
ghost use Rattle.std.specs.Prelude.{◌≡◌, ◌<◌, IfErr, IfOk};

use crate::ends::{End, Kind};
use crate::holding::Act;
use crate::twins::{TwinRig, TwinRun, TwinSheet, TwinTask, agreed};
use comparing::{
    Difference, Differs, Order, Orders, PlainTask, Random, Shape, Shapes, every_order_as, shaped,
    tallied,
};
use rigs::Rig;
use sheet::check;

// The sheets have fewer steps than this.
const STEPS: usize = 6;

// No driving of such a sheet wants more.
const LEFT: u16 = 5;

// A sheet, its running orders, the task that it is checked under, and the same task without needs.
#[derive(Drop)]
struct Trial<'a> {
    sheet: &'a TwinSheet,
    orders: Orders<'a, u8>,
    own: TwinTask,
    easy: TwinTask,
}

impl Trial<'_> {
    // Whether some running order begins with these positions.
    fn is_front(&self, front: &[u8]) -> bool {
        let mut orders = self.orders.all.as_slice().iter();
        orders.any(|order| order.positions().starts_with(front))
    }

    // Takes and does the positions in this order, while they begin a running order; the take behind them is refused.
    fn drive_easily(&self, order: &Order<u8>) -> Result<(), Differs> {
        let positions = order.positions();
        let mut run = TwinRun::open(&self.easy, self.sheet);
        let mut rig = TwinRig::word(self.easy.plain.start(), LEFT);
        for (k, p) in positions.iter().enumerate() {
            let is_front = self.is_front(&positions[..=k]);
            agreed(run.take(usize::from(*p))? == End(Kind::Take, (!is_front).then_some(10)))?;
            run.agree()?;
            if !is_front {
                return Ok(());
            }
            agreed(!run.ask(Act::Done, &mut rig)?.is_refused())?;
            run.agree()?;
            rig.agree()?;
        }
        agreed(run.plain.is_finished())
    }

    // Whether no step is refused in this running order, and the goal stands at its end.
    fn ends_well(&self, order: &Order<u8>) -> Result<bool, Differs> {
        let mut run = TwinRun::open(&self.own, self.sheet);
        let mut rig = TwinRig::word(self.own.plain.start(), LEFT);
        for p in order.positions() {
            agreed(!run.take(usize::from(*p))?.is_refused())?;
            let done = run.ask(Act::Done, &mut rig)?;
            run.agree()?;
            rig.agree()?;
            if done.is_refused() {
                return Ok(false);
            }
        }
        Ok(rig.rig.stands(&self.own.task.goal))
    }

    fn all_end_well(&self) -> Result<bool, Differs> {
        let mut all = true;
        for order in self.orders.all.as_slice() {
            all &= self.ends_well(order)?;
        }
        Ok(all)
    }

    fn drive_all(&self) -> Result<(), Differs> {
        for order in every_order_as::<u8>(self.sheet.model.steps()).as_slice() {
            self.drive_easily(order)?;
        }
        Ok(())
    }
}

// Drives one sheet in every order; refused where a driving ends otherwise than the list of running orders and the check say.
fn driven(random: &mut Random) -> Result<Shape, Differs> {
    let steps = random.below(STEPS);
    let plain = PlainTask::any(random, steps, &|_: &mut Random| 1);
    let sheet = TwinSheet::from(shaped(random, &plain, steps)?);
    let trial = Trial {
        sheet: &sheet,
        orders: Orders::permitted_by(&sheet.model),
        own: plain.into(),
        easy: plain.without_needs().into(),
    };
    trial.drive_all()?;
    let is_good = check(&trial.own.task, &sheet.sheet).is_ok();
    agreed(trial.all_end_well()? == is_good)?;
    Ok(Shape {
        is_loose: trial.orders.all.len() > 1,
        is_grouped: !sheet.model.blocks().is_empty(),
        is_wanting: !is_good,
    })
}

// Drives so many sheets, each under a task of its own. Either all drivings agree, or the sheet of one is named.
pub fn drive_every_order(random: &mut Random, sheets: u32) -> Result<Shapes, Difference>
    ensures all { IfOk result (λ shapes. shapes.sheets ≡ sheets) }
    ensures one { IfErr result (λ difference. difference.sheet < sheets) }
{
    tallied(random, sheets, |random| driven(random))
}
