// A book's plan laid as a sheet, and the listing of a sheet.
ghost use Rattle.std.specs.Prelude.{◌≡◌, ℕ, MatchResult};
ghost use Rattle.lines.specs.Text.{reply_text};
ghost use Rattle.lines.specs.Writing.{Answers};
ghost use Rattle.lines.specs.declared.answer.Reply.TheVariants.{Unlaid};
ghost use Rattle.sheet.specs.Sheets.{actions};
ghost use Rattle.sheet.specs.declared.fault.SheetFault.TheVariants.{WantingFact};
ghost use Rattle.week.specs.Output.{LaidAs, NoSheet, WeekOf, task_text};

use book::load::load;
use lines::{Reply, ShortBuffer, listing};
use sets::list::ArrayVec;
use sheet::{Sheet, SheetFault, lay};
use task::{BookTariff, Tariff, Task};

/// A week's plan as a sheet, and the task that its steps are of.
#[derive(Drop)]
pub struct LaidWeek {
    pub task: Task,
    pub sheet: Sheet,
}

/// The sheet of the book's plan, or the line that says why there is none.
pub fn lay_week(book: &[u8]) -> Result<LaidWeek, Reply>
    ensures { MatchResult result
        (λ week. WeekOf book.now (λ w. LaidAs w week.task week.sheet))
        (λ why. NoSheet book.now (reply_text why)) }
{
    let mut task = Task::new();
    let mut plan = ArrayVec::new(0);
    load(book, &mut task, &mut plan).map_err(|fault| Reply::Bad {
        number: fault.number(),
        line: fault.line(),
    })?;
    let sheet = lay(&task, plan.as_slice()).map_err(unlaid)?;
    Ok(LaidWeek { task, sheet })
}

// The line for a loaded book's plan that cannot be laid. No `From`: it asks that the fault be the one such a plan can have, and
// neither type is of this crate.
fn unlaid(fault: SheetFault) -> Reply
    requires { (place : ℕ) × ((fact : ℕ) × (fault ≡ WantingFact place fact)) }
    ensures { (place fact : ℕ) → fault ≡ WantingFact place fact → result ≡ Unlaid place fact }
{
    match fault {
        SheetFault::WantingFact { place, fact } => Reply::Unlaid { place, fact },
        // Such a plan fits a sheet, and names only the book's actions.
        SheetFault::TooLong | SheetFault::UnknownAction(_) => unreachable(),
    }
}

impl LaidWeek {
    /// Writes the listing of the sheet to the front of `out`, by the book's prices, and returns its length. A buffer that is too
    /// short is refused, and stays as it was.
    pub fn list(&self, out: &mut [u8]) -> Result<usize, ShortBuffer>
        ensures { Answers (task_text self.now.task (actions self.now.sheet)) out.old result out.new }
    {
        let price = self.sheet.price(&BookTariff { task: &self.task });
        listing(price, self.sheet.numbers().as_slice(), out)
    }
}
