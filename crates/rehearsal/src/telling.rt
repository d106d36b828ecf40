// What is asked for, and lines that say what became of it.
use edits::{Edit, EditFault, apply};
use sheet::{Sheet, check, lay};
use std::fmt;
use task::{BookTariff, Tariff, Task};

// A longer list has one number throughout here.
const LONGEST: usize = 6;

// A list of action numbers.
#[derive(Clone, Copy)]
struct Entries<'a>(&'a [u32]);

impl fmt::Display for Entries<'_> {
    fn fmt<W: fmt::Write>(&self, f: &mut fmt::Formatter<W>) -> fmt::Result {
        let len = self.0.len();
        // An empty list has a word of its own, and is no fault.
        let Some(first) = self.0.first() else {
            return write!(f, " nothing");
        };
        if len > LONGEST {
            return write!(f, " {len} times {first}");
        }
        // A loop, here and below: each turn writes, and may fail.
        for action in self.0 {
            write!(f, " {action}")?;
        }
        Ok(())
    }
}

// An edit by its name and numbers.
#[derive(Clone, Copy)]
struct Words<'a>(Edit<'a>);

impl fmt::Display for Words<'_> {
    fn fmt<W: fmt::Write>(&self, f: &mut fmt::Formatter<W>) -> fmt::Result {
        match self.0 {
            Edit::Swap(k) => write!(f, "swap {k}"),
            Edit::Group(a, b) => write!(f, "group {a} {b}"),
            Edit::Ungroup(a, b) => write!(f, "ungroup {a} {b}"),
            Edit::Loosen(i, j) => write!(f, "loosen {i} {j}"),
            Edit::Replace(a, b, list) => {
                let entries = Entries(list);
                write!(f, "replace {a} {b} by{entries}")
            }
        }
    }
}

// A refusal by its number and what it names.
#[derive(Clone, Copy)]
struct Refusal(EditFault);

impl fmt::Display for Refusal {
    fn fmt<W: fmt::Write>(&self, f: &mut fmt::Formatter<W>) -> fmt::Result {
        let number = self.0.number();
        write!(f, "no {number}")?;
        for value in self.0.values().as_slice() {
            write!(f, " {value}")?;
        }
        Ok(())
    }
}

// The blocks of the sheet, by their first positions and then by their last ones.
#[derive(Clone, Copy)]
struct Blocks<'a>(&'a Sheet);

impl fmt::Display for Blocks<'_> {
    fn fmt<W: fmt::Write>(&self, f: &mut fmt::Formatter<W>) -> fmt::Result {
        let sheet = self.0;
        let n = sheet.steps();
        // `comparing` makes lists of such pairs, for small sheets alone.
        let pairs = (0..n).flat_map(|a| (0..n).map(move |b| (a, b)));
        for (a, b) in pairs.filter(|(a, b)| sheet.is_block(*a, *b)) {
            write!(f, " {a}-{b}")?;
        }
        Ok(())
    }
}

// The actions of the sheet's steps.
#[derive(Clone, Copy)]
struct Actions<'a>(&'a Sheet);

impl fmt::Display for Actions<'_> {
    fn fmt<W: fmt::Write>(&self, f: &mut fmt::Formatter<W>) -> fmt::Result {
        for number in self.0.actions() {
            write!(f, " {number}")?;
        }
        Ok(())
    }
}

// A task and the tariff under which edits are asked for. The functions that take `rt` and `task` make one.
#[derive(Clone, Copy)]
pub struct Rehearsal<'a, T: Tariff> {
    rt: &'a HostRuntime,
    task: &'a Task,
    tariff: T,
}

impl<'a> Rehearsal<'a, BookTariff<'a>> {
    pub fn by_book(rt: &'a HostRuntime, task: &'a Task) -> Self {
        Rehearsal::new(rt, task, BookTariff { task })
    }
}

impl<'a, T: Tariff> Rehearsal<'a, T> {
    pub fn new(rt: &'a HostRuntime, task: &'a Task, tariff: T) -> Self {
        Rehearsal { rt, task, tariff }
    }

    // Asks for the edit, and tells its end.
    pub fn edit(&self, sheet: &mut Sheet, edit: Edit<'_>) -> anyhow::Result<()> {
        let rt = self.rt;
        let before = *sheet;
        let words = Words(edit);
        print!(rt; "{words}: ")?;
        match apply(sheet, self.task, &self.tariff, edit) {
            Ok(saving) => println!(rt; "done {saving}")?,
            Err(fault) => {
                let refusal = Refusal(fault);
                let end = if *sheet == before {
                    "as it was"
                } else {
                    "changed"
                };
                println!(rt; "{refusal}, {end}")?;
            }
        }
        Ok(())
    }

    // A loop, as below and in `small`: each turn asks, prints, and may fail.
    pub fn edits(&self, sheet: &mut Sheet, edits: &[Edit<'_>]) -> anyhow::Result<()> {
        for edit in edits {
            self.edit(sheet, *edit)?;
        }
        Ok(())
    }

    // The same, telling the sheet behind each of them: a closure for that one line would be no shorter.
    pub fn edits_and_sheets(&self, sheet: &mut Sheet, edits: &[Edit<'_>]) -> anyhow::Result<()> {
        for edit in edits {
            self.edit(sheet, *edit)?;
            self.show(sheet)?;
        }
        Ok(())
    }

    // Lays the plan, and tells whether it was refused.
    pub fn lay(&self, plan: &[u32]) -> anyhow::Result<Option<Sheet>> {
        let rt = self.rt;
        let entries = Entries(plan);
        print!(rt; "lay{entries}: ")?;
        let answer = lay(self.task, plan);
        match answer {
            Ok(sheet) => {
                let steps = sheet.steps();
                println!(rt; "steps {steps}")?;
            }
            Err(fault) => {
                let refusal = Refusal(fault.into());
                println!(rt; "{refusal}")?;
            }
        }
        Ok(answer.ok())
    }

    // Lays the plan, and goes on with its sheet; where the plan is refused, that is told, and is no fault.
    pub fn on_laid<F: FnOnce(&mut Sheet) -> anyhow::Result<()>>(
        &self,
        plan: &[u32],
        then: F,
    ) -> anyhow::Result<()>
        requires { F.IsAlwaysCallable then }
    {
        let Some(mut sheet) = self.lay(plan)? else {
            return Ok(());
        };
        then(&mut sheet)
    }

    pub fn check(&self, sheet: &Sheet) -> anyhow::Result<()> {
        let rt = self.rt;
        match check(self.task, sheet) {
            Ok(()) => println!(rt; "check: good")?,
            Err(fault) => {
                let refusal = Refusal(fault.into());
                println!(rt; "check: {refusal}")?;
            }
        }
        Ok(())
    }

    // Tells the steps' actions and the blocks.
    pub fn show(&self, sheet: &Sheet) -> anyhow::Result<()> {
        let rt = self.rt;
        let actions = Actions(sheet);
        let blocks = Blocks(sheet);
        println!(rt; "actions{actions}; blocks{blocks}")?;
        Ok(())
    }
}
