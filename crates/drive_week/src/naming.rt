// What a book has besides its task and its plan: names, and edits.
use edits::Edit;
use records::reader::Reader;
use records::record::{Edit as Written, Record};
use std::alloc::Global;
use std::str;
use task::Plan;
use week::{list_of, meant, next_edit};

/// The names of the facts and of the actions, by their numbers.
#[derive(Drop)]
pub struct Names<'b> {
    pub facts: Vec<&'b str>,
    pub actions: Vec<&'b str>,
}

impl<'b> Names<'b> {
    /// Those of a book that loads.
    pub fn of(book: &'b [u8], heap: Global) -> anyhow::Result<Names<'b>> {
        let mut names = Names {
            facts: Vec::new(heap),
            actions: Vec::new(heap),
        };
        let mut reader = Reader::new(book);
        for _ in 0..book.len() {
            match reader.next() {
                Ok(Some(Record::Fact(name))) => names.facts.push(str::from_utf8(name)?)?,
                Ok(Some(Record::Act(act))) => names.actions.push(str::from_utf8(act.name)?)?,
                Ok(Some(_)) => {}
                _ => break,
            }
        }
        Ok(names)
    }
}

/// The edits of a book that loads, as it writes them, each with its list of action numbers.
#[derive(Drop)]
pub struct Edits<'b> {
    written: Vec<(Written<'b>, Plan)>,
}

impl<'b> Edits<'b> {
    pub fn of(book: &'b [u8], heap: Global) -> anyhow::Result<Edits<'b>> {
        let mut written = Vec::new(heap);
        let mut reader = Reader::new(book);
        for _ in 0..book.len() {
            let Some(edit) = next_edit(&mut reader) else {
                break;
            };
            written.push((edit, list_of(&edit)))?;
        }
        Ok(Edits { written })
    }

    /// As edits of a sheet.
    pub fn meant(&self, heap: Global) -> anyhow::Result<Vec<Edit<'_>>> {
        let mut edits = Vec::new(heap);
        for (edit, list) in &self.written {
            edits.push(meant(*edit, list.as_slice()))?;
        }
        Ok(edits)
    }
}
