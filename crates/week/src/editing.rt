// A book's edits carried out, and what is said of each.
ghost use Rattle.std.specs.Prelude.{◌≡◌, ◌≤◌, List, length, IfOk};
ghost use Rattle.book.specs.Weeks.{ChangeFits, bytes};
ghost use Rattle.edits.specs.Applying.{Applies};
ghost use Rattle.lines.specs.Text.{reply_text};
ghost use Rattle.orders.specs.Changes.{Change};
ghost use Rattle.records.specs.Lines.{Line, Proper, ProperChange};
ghost use Rattle.records.specs.Records.{EditSays};
ghost use Rattle.week.specs.Editing.{Replies, answer_text, book_prices, changes_in};
ghost use Rattle.std.specs.List.{AllByRecursion};

use crate::laying::LaidWeek;
use crate::reading::{list_of, meant, next_edit};
use edits::apply;
use lines::{Reply, ShortBuffer, reply};
use records::reader::Reader;
use records::record::Edit as Written;
use shaping::EditFault;
use sheet::SheetFault;
use task::BookTariff;

// What the program says to the answer of an edit. No `From`: neither type is of this crate.
fn reply_to(answer: Result<u32, EditFault>) -> Reply
    ensures { reply_text result ≡ answer_text answer }
{
    match answer {
        Ok(saving) => Reply::Done { saving },
        Err(EditFault::Sheet(SheetFault::UnknownAction(action))) => Reply::NoAction { action },
        Err(EditFault::Sheet(SheetFault::WantingFact { place, fact })) => {
            Reply::NoFact { place, fact }
        }
        Err(fault) => Reply::No {
            number: fault.number(),
        },
    }
}

impl LaidWeek {
    // Carries out an edit of the book, by the book's prices.
    fn carry_out(&mut self, edit: Written<'_>) -> Result<u32, EditFault>
        ensures task { self.new.task ≡ self.old.task }
        ensures says { (change : Change) → ProperChange change → ChangeFits change → EditSays edit.entry change →
            Applies (book_prices self.old.task) self.old.task self.old.sheet change result self.new.sheet }
    {
        let list = list_of(&edit);
        let task = &self.task;
        let tariff = BookTariff { task };
        apply(&mut self.sheet, task, &tariff, meant(edit, list.as_slice()))
    }

    // Carries out the edits that are still to be read, one after another, and writes a line for each to the front of `out`.
    // Says how many bytes these are; where `out` is too short for the next of them, it has those before.
    pub(crate) fn carry_out_all(
        &mut self,
        book: &[u8],
        out: &mut [u8],
    ) -> Result<usize, ShortBuffer>
        ensures task { self.new.task ≡ self.old.task }
        ensures says { (lines : List Line) → AllByRecursion Proper lines → AllByRecursion ChangeFits (changes_in lines) → book.now ≡ bytes lines →
            Replies self.old.task self.old.sheet (changes_in lines) out.old result self.new.sheet out.new }
        ensures within { IfOk result (λ len. len ≤ length out.new) }
    {
        let mut reader = Reader::new(book);
        let mut len = 0;
        while let Some(edit) = next_edit(&mut reader) {
            let answer = self.carry_out(edit);
            len += reply(reply_to(answer), &mut out[len..])?;
        }
        Ok(len)
    }
}
