// Small sheets driven at random, by two runs over one rig, and each call compared with the rules.
ghost use Rattle.std.specs.Prelude.{◌≡◌, ◌<◌, IfErr, IfOk};

use crate::ends::{CALLS, End, Ends, Kind, Session, Whose};
use crate::holding::Act;
use crate::plain::{PlainRig, PlainRun};
use crate::twins::{TwinRig, TwinRun, TwinSheet, TwinTask};
use comparing::{Difference, Differs, PlainFacts, PlainTask, Random, shaped, tallied};
use rigs::{LampRig, Rig};
use sets::list::ArrayVec;
use std::mem;
use task::{Facts, Task};

// The sheets have one step to so many.
const STEPS: usize = 5;

// A rig has fewer steps left than this at the start. Two runs of five steps want ten.
const LEFT: usize = 14;

// What is asked for.
#[derive(Clone, Copy)]
enum Call {
    Take(usize),
    BySlip(Act, Whose),
}

// One of the open positions; any position where there is none.
fn open_position(random: &mut Random, run: &PlainRun<'_>) -> usize {
    let open = run.seen().open;
    let any = random.below(run.steps());
    let skipped = random.below(open.count());
    let mut positions = (0..run.steps()).filter(|p| open.has(*p));
    positions.nth(skipped).unwrap_or(any)
}

// Mostly an open position, and often the one that the other run has taken.
fn position(random: &mut Random, run: &PlainRun<'_>, other: &PlainRun<'_>) -> usize {
    let open = open_position(random, run);
    match random.below(16) {
        0 => usize::MAX,
        1 => 128,
        2 => run.steps(),
        3 | 4 => random.below(run.steps()),
        5..=10 => other.taken().unwrap_or(open),
        _ => open,
    }
}

// Mostly a call that can be carried out.
fn next_call(random: &mut Random, run: &PlainRun<'_>, other: &PlainRun<'_>) -> Call {
    let act = if random.once_in(4) {
        Act::PutBack
    } else {
        Act::Done
    };
    let whose = match random.below(8) {
        0..=2 => Whose::Others,
        3 => Whose::Blank,
        _ => Whose::Own,
    };
    if run.taken().is_some() != random.once_in(8) {
        Call::BySlip(act, whose)
    } else {
        Call::Take(position(random, run, other))
    }
}

// Two runs over one sheet, and the rig that both of them use.
#[derive(Drop)]
struct Pair<'a, R> {
    run: TwinRun<'a>,
    other: TwinRun<'a>,
    rig: TwinRig<R>,
}

impl<R: Rig> Pair<'_, R> {
    // Asks one of the runs.
    fn ask(&mut self, random: &mut Random) -> Result<End, Differs> {
        if random.once_in(2) {
            mem::swap(&mut self.run, &mut self.other);
        }
        match next_call(random, &self.run.plain, &self.other.plain) {
            Call::Take(p) => self.run.take(p),
            Call::BySlip(act, Whose::Own) => self.run.ask(act, &mut self.rig),
            Call::BySlip(act, Whose::Blank) => self.run.ask_by_blank(act, &mut self.rig),
            Call::BySlip(act, Whose::Others) => {
                self.run.ask_by_slip_of(&mut self.other, act, &mut self.rig)
            }
        }
    }

    // Asks them for many calls, and compares both runs and the rig after each.
    fn session(&mut self, random: &mut Random) -> Result<Session, Differs> {
        let mut ends = ArrayVec::new(End(Kind::Take, None));
        for _ in 0..CALLS {
            let _ = ends.push(self.ask(random)?);
            self.run.agree()?;
            self.other.agree()?;
            self.rig.agree()?;
        }
        let finished = [&self.run, &self.other]
            .iter()
            .filter(|run| run.plain.is_finished())
            .count();
        Ok(Session { ends, finished })
    }
}

// A sheet, and the tasks of two runs over it.
#[derive(Drop)]
struct Work {
    sheet: TwinSheet,
    task: TwinTask,
    other: TwinTask,
}

// The task, the same without needs, or with fewer actions.
fn task_like(random: &mut Random, plain: &PlainTask, steps: usize) -> TwinTask {
    match random.below(4) {
        0 => plain.without_needs().into(),
        1 => plain.shortened(steps.saturating_sub(1)).into(),
        _ => (*plain).into(),
    }
}

impl Work {
    fn drive<R: Rig + Drop>(
        &self,
        random: &mut Random,
        rig: TwinRig<R>,
    ) -> Result<Session, Differs> {
        let mut pair = Pair {
            run: TwinRun::open(&self.task, &self.sheet),
            other: TwinRun::open(&self.other, &self.sheet),
            rig,
        };
        pair.session(random)
    }

    fn drive_lamps(&self, random: &mut Random, plain: PlainRig) -> Result<Session, Differs> {
        let facts = Facts::from(plain.facts);
        let mut lamps = [0; Task::MOST_FACTS];
        for (f, lamp) in lamps.iter_mut().enumerate() {
            if facts.has(f) {
                *lamp = random.below(255) as u8 + 1;
            }
        }
        let rig = LampRig::new(&mut lamps, plain.left);
        self.drive(random, TwinRig { rig, plain })
    }

    // There is a lamp too few: no fact stands, and no step is left.
    fn drive_too_few_lamps(&self, random: &mut Random) -> Result<Session, Differs> {
        let mut lamps = [1; Task::MOST_FACTS - 1];
        let rig = LampRig::new(&mut lamps, 1);
        let plain = PlainRig {
            facts: PlainFacts::NONE,
            left: 0,
        };
        self.drive(random, TwinRig { rig, plain })
    }
}

// Drives one sheet by two runs over one rig, which mostly has the start facts.
fn driven(random: &mut Random) -> Result<Session, Differs> {
    let steps = random.below(STEPS) + 1;
    let plain = PlainTask::any(random, steps, &|_: &mut Random| 1);
    let work = Work {
        sheet: shaped(random, &plain, steps)?.into(),
        task: task_like(random, &plain, steps),
        other: task_like(random, &plain, steps),
    };
    let facts = if random.once_in(4) {
        PlainFacts::any(random)
    } else {
        plain.start()
    };
    let left = random.below(LEFT) as u16;
    match random.below(16) {
        0 => work.drive_too_few_lamps(random),
        1..=7 => work.drive_lamps(random, PlainRig { facts, left }),
        _ => work.drive(random, TwinRig::word(facts, left)),
    }
}

// Drives so many sheets. Either all answers agree, or the sheet of one is named.
pub fn drive_at_random(random: &mut Random, sheets: u32) -> Result<Ends, Difference>
    ensures all { IfOk result (λ ends. ends.sheets ≡ sheets) }
    ensures one { IfErr result (λ difference. difference.sheet < sheets) }
{
    tallied(random, sheets, |random| driven(random))
}
