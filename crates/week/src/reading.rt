// The edits of a book, as its lines have them.
ghost use Rattle.std.specs.Prelude.{◌≡◌, ℕ, ◌<◌, ◌≤◌, true, List, [], length, is_some, MatchOption};
ghost use Rattle.book.specs.Weeks.{ChangeFits, bytes};
ghost use Rattle.edits.specs.Applying.{change_of};
ghost use Rattle.orders.specs.Changes.{Change};
ghost use Rattle.records.specs.Lines.{Line, Proper, ProperChange};
ghost use Rattle.records.specs.Reading.{unread};
ghost use Rattle.records.specs.Records.{EditSays};
ghost use Rattle.week.specs.Editing.{NextEdit, changes_in, listed_in, meant};
ghost use Rattle.sets.specs.Contents.{contents};
ghost use Rattle.std.specs.List.{AllByRecursion};
ghost use Rattle.text.specs.Fields.{IsList};

use edits::Edit;
use records::reader::Reader;
use records::record::{Edit as Written, Record};
use sets::list::ArrayVec;
use task::Plan;
use text::Entries;

/// The next edit among the lines that are still to be read; nothing where none is left. What it hands out of a text that is
/// no lines of a book is not promised; each edit that it hands out leaves less to be read.
pub fn next_edit<'a>(reader: &mut Reader<'a>) -> Option<Written<'a>>
    ensures says { (lines : List Line) → AllByRecursion Proper lines → unread reader.old ≡ bytes lines →
        MatchOption result
        (changes_in lines ≡ [])
        (λ edit. NextEdit lines edit reader.new) }
    ensures falls { is_some result ≡ true → length (unread reader.new) < length (unread reader.old) }
{
    while let Ok(Some(record)) = reader.next() {
        if let Record::Edit(edit) = record {
            return Some(edit);
        }
    }
    None
}

/// The list of action numbers that the edit writes out: that of a replacement; any other has none. A replacement's text
/// that is no list of at most 128 numbers gives some list, of which nothing is promised; no edit of a book that loads has one.
pub fn list_of(edit: &Written<'_>) -> Plan
    ensures { (change : Change) → ProperChange change → ChangeFits change → EditSays edit.now change →
        contents result ≡ listed_in change }
{
    match edit {
        Written::Replace(_, _, text) => numbers_of(text),
        _ => ArrayVec::new(0),
    }
}

/// The edit of a sheet that the book's edit is, with that list in the place of a replacement's own text.
pub fn meant<'l>(edit: Written<'_>, list: &'l [u32]) -> Edit<'l>
    ensures means { change_of result ≡ meant edit.entry list.now }
    ensures says { (change : Change) → EditSays edit.entry change → list.now ≡ listed_in change → change_of result ≡ change }
{
    match edit {
        Written::Swap(k) => Edit::Swap(k as usize),
        Written::Group(a, b) => Edit::Group(a as usize, b as usize),
        Written::Ungroup(a, b) => Edit::Ungroup(a as usize, b as usize),
        Written::Loosen(i, j) => Edit::Loosen(i as usize, j as usize),
        Written::Replace(a, b, _) => Edit::Replace(a as usize, b as usize, list),
    }
}

// The action numbers of a list's text.
fn numbers_of(text: &[u8]) -> Plan
    ensures { (list : List ℕ) → IsList text.now list → length list ≤ 128 → contents result ≡ list }
{
    let mut numbers = ArrayVec::new(0);
    let mut entries = Entries::new(text);
    while let Ok(Some(number)) = entries.next() {
        let _ = numbers.push(number);
    }
    numbers
}
