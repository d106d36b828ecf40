// Loading: a book becomes a task and a plan, or is refused at its first line at fault.
ghost use Rattle.book.specs.Loading.{Accepted, Loads, Refused, RoundTrip};
ghost use Rattle.std.specs.Prelude.{◌≡◌, MatchResult};

use crate::fault::{LoadFault, placed};
use crate::loader::Loader;
use records::reader::Reader;
use task::{Plan, Task};

/// A book has at most so many bytes.
pub const LONGEST_BOOK: usize = 32_768;

// The task and the plan of the whole book.
fn gather(book: &[u8]) -> Result<Loader, LoadFault>
    ensures { MatchResult result (λ l. Accepted book.now l.task l.plan) (λ e. Refused book.now e) }
{
    if book.len() > LONGEST_BOOK {
        return Err(LoadFault::TooLong);
    }
    let mut reader = Reader::new(book);
    let mut loader = Loader::new();
    let mut line = reader.line();
    while let Some(next) = placed(line, reader.next())? {
        placed(line, loader.accept(next))?;
        line = reader.line();
    }
    placed(line, loader.end())?;
    Ok(loader)
}

fn store(loader: Loader, task: &mut Task, plan: &mut Plan)
    ensures task { task.new ≡ loader.task }
    ensures plan { plan.new ≡ loader.plan }
{
    *task = loader.task;
    *plan = loader.plan;
}

/// Fills the task and the plan from the book; where it is refused, both are empty.
pub fn load(book: &[u8], task: &mut Task, plan: &mut Plan) -> Result<(), LoadFault>
    ensures says { Loads book.now result task.new plan.new }
    ensures round_trip { RoundTrip book.now result task.new plan.new }
{
    store(Loader::new(), task, plan);
    store(gather(book)?, task, plan);
    Ok(())
}
