// The program's answer to a book, as bytes.
ghost use Rattle.std.specs.Prelude.{◌≡◌, true};
ghost use Rattle.book.specs.Weeks.{Fits, Week, bytes, said};
ghost use Rattle.week.specs.Output.{LaidAs, Listed, Text, TooShort, WeekCut, Writes};

use crate::laying::{LaidWeek, lay_week};
use lines::{ShortBuffer, reply};

/// What the answer is, and how many bytes it has.
#[derive(Clone, Copy, Debug, PartialEq, Eq)]
pub enum Outcome {
    /// The listing of a plan.
    Listed(usize),
    /// The one line that says why there is none.
    Refused(usize),
}

// Carries out the book's edits on the sheet, and lists what it is then.
// The book and the buffer are the caller's, and stay two parameters: one is read, and the other written to.
fn edited(book: &[u8], mut week: LaidWeek, out: &mut [u8]) -> Result<Outcome, ShortBuffer>
    ensures { (w : Week) → Fits w → book.now ≡ bytes (said w) → LaidAs w week.task week.sheet →
        Writes (λ accepted text. (accepted ≡ true) × Listed text w) (WeekCut w) out.old result out.new }
{
    let at = week.carry_out_all(book, out)?;
    let len = week.list(&mut out[at..])?;
    Ok(Outcome::Listed(at + len))
}

/// Writes the answer to the front of `out`: a line for each edit, and then the last sheet's price and steps; or the one line
/// that says why the book is refused or its plan cannot be laid. A buffer that is too short for that is refused: it has the
/// lines for the edits that fit, in their order, and behind them is as it was.
pub fn answer(book: &[u8], out: &mut [u8]) -> Result<Outcome, ShortBuffer>
    ensures { Writes (Text book.now) (TooShort book.now) out.old result out.new }
{
    match lay_week(book) {
        Ok(week) => edited(book, week, out),
        Err(why) => reply(why, out).map(Outcome::Refused),
    }
}
