// Tasks, sheets, runs and rigs, each kept a second time, and what they answer compared.
use crate::ends::{End, Kind, Whose};
use crate::holding::{Act, Answer, Holding};
use crate::plain::{PlainRig, PlainRun, Ruling};
use comparing::{Differs, Model, PlainFacts, PlainTask};
use rigs::{Rig, WordRig};
use sheet::Sheet;
use task::{Facts, Task};

#[derive(Drop)]
pub struct TwinTask {
    pub task: Task,
    pub plain: PlainTask,
}

#[derive(Drop)]
pub struct TwinSheet {
    pub sheet: Sheet,
    pub model: Model,
}

#[derive(Drop)]
pub struct TwinRig<R> {
    pub rig: R,
    pub plain: PlainRig,
}

#[derive(Drop)]
pub struct TwinRun<'a> {
    held: Holding<'a>,
    pub plain: PlainRun<'a>,
}

pub fn agreed(agrees: bool) -> Result<(), Differs> {
    agrees.then_some(()).ok_or(Differs)
}

impl From<PlainTask> for TwinTask {
    fn from(plain: PlainTask) -> Self {
        TwinTask {
            task: plain.task(),
            plain,
        }
    }
}

impl From<Sheet> for TwinSheet {
    fn from(sheet: Sheet) -> Self {
        TwinSheet {
            sheet,
            model: Model::read(&sheet),
        }
    }
}

impl TwinRig<WordRig> {
    pub fn word(facts: PlainFacts, left: u16) -> Self {
        TwinRig {
            rig: WordRig::new(facts.into(), left),
            plain: PlainRig { facts, left },
        }
    }
}

impl<R: Rig> TwinRig<R> {
    // Whether the same facts stand on both, and as many steps are left.
    pub fn agree(&self) -> Result<(), Differs> {
        let all = Facts::below(Task::MOST_FACTS);
        let missing = all.minus(&self.plain.facts.into());
        agreed(self.rig.missing(&all) == missing && self.rig.left() == self.plain.left)
    }
}

impl<'a> TwinRun<'a> {
    pub fn open(task: &'a TwinTask, sheet: &'a TwinSheet) -> Self {
        TwinRun {
            held: Holding::open(&task.task, &sheet.sheet),
            plain: PlainRun::open(&task.plain, &sheet.model),
        }
    }

    // Whether both are at one moment.
    pub fn agree(&self) -> Result<(), Differs> {
        agreed(self.held.seen(self.plain.steps()) == self.plain.seen())
    }

    pub fn take(&mut self, p: usize) -> Result<End, Differs> {
        let ruling = self.plain.take(p);
        let answer = self.held.take(p);
        ended(Kind::Take, &ruling, &answer)
    }

    // Asks by its own slip.
    pub fn ask<R: Rig>(&mut self, act: Act, rig: &mut TwinRig<R>) -> Result<End, Differs> {
        let slip = self.plain.taken();
        let ruling = self.plain.ask(act, slip, &mut rig.plain);
        let answer = self.held.ask(act, &mut rig.rig);
        ended(Kind::BySlip(act, Whose::Own), &ruling, &answer)
    }

    pub fn ask_by_slip_of<R: Rig>(
        &mut self,
        other: &mut Self,
        act: Act,
        rig: &mut TwinRig<R>,
    ) -> Result<End, Differs> {
        let ruling = self.plain.ask(act, other.plain.taken(), &mut rig.plain);
        let answer = self.held.ask_by_slip_of(&mut other.held, act, &mut rig.rig);
        ended(Kind::BySlip(act, Whose::Others), &ruling, &answer)
    }

    pub fn ask_by_blank<R: Rig>(&mut self, act: Act, rig: &mut TwinRig<R>) -> Result<End, Differs> {
        let ruling = self.plain.ask(act, None, &mut rig.plain);
        let answer = self.held.ask_by_blank(act, &mut rig.rig);
        ended(Kind::BySlip(act, Whose::Blank), &ruling, &answer)
    }
}

// How a call ended, where the run answers as the rules do.
fn ended(kind: Kind, ruling: &Ruling, answer: &Answer) -> Result<End, Differs> {
    agreed(ruling.is(answer))?;
    let number = answer.outcome.err().map(|fault| fault.number());
    Ok(End(kind, number))
}
