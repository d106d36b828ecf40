// Hands out the records of a book, one at a time.
ghost use Rattle.std.specs.Prelude.{◌≡◌, ◌+◌, ◌≤◌, length};

use crate::fault::RecordFault;
use crate::line::read_record;
use crate::record::Record;
use text::cut;

/// What stands before `cursor` is read, and was `lines` lines. A cursor in a borrowed text is the form that the project asks for.
#[derive(Clone, Copy)]
pub struct Reader<'a> {
    book: &'a [u8],
    cursor: usize,
    lines: usize,
    ghost within: { cursor ≤ length book.now },
    ghost counted: { lines ≤ cursor },
}

impl<'a> Reader<'a> {
    ghost use Rattle.records.specs.Reading.{Next, unread};

    /// A reader that stands at the first line.
    pub fn new(book: &'a [u8]) -> Self
        ensures text { unread result ≡ book.now }
        ensures line { result.lines ≡ 0 }
    {
        Reader {
            book,
            cursor: 0,
            lines: 0,
        }
    }

    /// The number of the line that `next` reads, from 1.
    pub fn line(&self) -> usize
        ensures { result ≡ self.now.lines + 1 }
    {
        self.lines + 1
    }

    /// The record of the next line, or nothing at the book's end; a line that is none stays unread: an iterator would have
    /// to end there.
    pub fn next(&mut self) -> Result<Option<Record<'a>>, RecordFault>
        ensures { Next self.old result self.new }
    {
        let rest = self.rest();
        if rest.is_empty() {
            return Ok(None);
        }
        let (line, _) = cut(rest, b'\n').ok_or(RecordFault::Unended)?;
        let record = read_record(line)?;
        self.cursor += line.len() + 1;
        self.lines += 1;
        Ok(Some(record))
    }

    fn rest(&self) -> &'a [u8]
        ensures { result.now ≡ unread self.now }
    {
        &self.book[self.cursor..]
    }
}
