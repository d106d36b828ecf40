// A book's week on two rigs.
use crate::naming::{Edits, Names};
use crate::telling::Driven;
use crate::watching::Watched;
use anyhow::anyhow;
use book::load::load;
use driver::drive;
use rigs::{LampRig, Rig, WordRig};
use runs::RunFault;
use sets::bits::BitSet;
use sets::list::ArrayVec;
use std::alloc::Global;
use std::io::{self, Write};
use task::{BookTariff, Facts, LONGEST_LIST, Plan, Task};
use whole_week::{WeekDone, do_week};

// Enough for every sheet.
const STEPS: u16 = LONGEST_LIST as u16;

// Positions in the order in which they are taken.
type Order = ArrayVec<usize, LONGEST_LIST>;

/// A week's book: what it loads, its names and its edits.
#[derive(Drop)]
pub struct Week<'b> {
    task: Task,
    plan: Plan,
    names: Names<'b>,
    edits: Edits<'b>,
}

impl<'b> Week<'b> {
    /// The week of the book, if it loads.
    pub fn read(book: &'b [u8], heap: Global) -> anyhow::Result<Week<'b>> {
        let mut task = Task::new();
        let mut plan = ArrayVec::new(0);
        load(book, &mut task, &mut plan).map_err(|fault| {
            anyhow!(
                "the book is refused with {} in line {}",
                fault.number(),
                fault.line()
            )
        })?;
        Ok(Week {
            task,
            plan,
            names: Names::of(book, heap)?,
            edits: Edits::of(book, heap)?,
        })
    }

    // Tells of a rig that was driven over a sheet of these steps.
    fn tell_driving<W: Write, R: Rig>(
        &self,
        out: &mut W,
        steps: &Plan,
        order: &Order,
        rig: &Watched<R>,
        end: Result<(), RunFault>,
    ) -> io::Result<()> {
        let driven = Driven {
            names: &self.names,
            task: &self.task,
            steps: steps.as_slice(),
        };
        driven.tell(out, order.as_slice(), rig, end)
    }

    // Carries the week out on these rigs, the lowest open position first; and the positions in the order of the second
    // one.
    fn run_lowest<R: Rig, S: Rig>(
        &self,
        first: &mut R,
        second: &mut S,
        heap: Global,
    ) -> anyhow::Result<(WeekDone, Order)> {
        let tariff = BookTariff { task: &self.task };
        let edits = self.edits.meant(heap)?;
        let mut order = Order::new(0);
        let lowest = |open: &BitSet<2>| -> usize {
            let p = open.lowest().unwrap_or(0);
            let _ = order.push(p);
            p
        };
        let ran = do_week(
            &self.task,
            self.plan.as_slice(),
            edits.as_slice(),
            &tariff,
            first,
            second,
            lowest,
        );
        let week = ran.map_err(|fault| anyhow!("the plan is refused with {}", fault.number()))?;
        Ok((week, order))
    }

    /// Lays the plan and has a rig of lamps do it as laid, carries out the edits, and drives a word rig over the sheet
    /// that they leave, the lowest open position first. Tells of both; the rigs begin with the facts of `start`.
    pub fn tell_lowest<W: Write>(
        &self,
        out: &mut W,
        start: &Facts,
        heap: Global,
    ) -> anyhow::Result<WeekDone> {
        let mut lamps = lit(start);
        let first = LampRig::new(&mut lamps, STEPS);
        self.tell_on(out, first, WordRig::new(*start, STEPS), heap)
    }

    // The same on any rigs.
    fn tell_on<W: Write, R: Rig + Drop, S: Rig + Drop>(
        &self,
        out: &mut W,
        first: R,
        second: S,
        heap: Global,
    ) -> anyhow::Result<WeekDone> {
        let mut first = Watched::new(first);
        let mut second = Watched::new(second);
        let (week, order) = self.run_lowest(&mut first, &mut second, heap)?;
        let in_order = Order::collect(0, 0..self.plan.len());
        writeln!(out, "the plan as laid, on a rig of lamps")?;
        self.tell_driving(out, &self.plan, &in_order, &first, week.as_laid)?;
        writeln!(
            out,
            "the edited sheet, on a word rig, the lowest open position first; saved: {}",
            week.saved
        )?;
        let steps = week.sheet.numbers();
        self.tell_driving(out, &steps, &order, &second, week.as_edited)?;
        Ok(week)
    }

    /// Drives a word rig over the edited sheet, the highest open position first, and tells of it; says whether it came
    /// to the end.
    pub fn tell_highest<W: Write>(
        &self,
        out: &mut W,
        start: &Facts,
        week: &WeekDone,
    ) -> anyhow::Result<bool> {
        let mut rig = Watched::new(WordRig::new(*start, STEPS));
        let mut order = Order::new(0);
        let highest = |open: &BitSet<2>| -> usize {
            let p = open.highest().unwrap_or(0);
            let _ = order.push(p);
            p
        };
        let end = drive(&self.task, &week.sheet, &mut rig, highest);
        writeln!(
            out,
            "the edited sheet, on a word rig, the highest open position first"
        )?;
        let steps = week.sheet.numbers();
        self.tell_driving(out, &steps, &order, &rig, end)?;
        Ok(end.is_ok())
    }

    /// The start facts but those.
    pub fn start_without(&self, lacking: &Facts) -> Facts {
        self.task.start.minus(lacking)
    }
}

// The lamps of the facts that stand.
fn lit(start: &Facts) -> [u8; Task::MOST_FACTS] {
    let mut lamps = [0; Task::MOST_FACTS];
    for (fact, lamp) in lamps.iter_mut().enumerate() {
        *lamp = u8::from(start.has(fact));
    }
    lamps
}
