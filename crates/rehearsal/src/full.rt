// Sheets of 128 steps, and lists that would make more.
use crate::small::rehearse_number;
use crate::tasks::idle;
use crate::telling::Rehearsal;
use edits::Edit;

// Ties near both ends, the whole as a block, and swaps.
const SHAPING: [Edit<'static>; 18] = [
    Edit::Swap(1),
    Edit::Swap(127),
    Edit::Swap(128),
    Edit::Loosen(0, 127),
    Edit::Loosen(0, 1),
    Edit::Loosen(0, 1),
    Edit::Loosen(126, 127),
    Edit::Loosen(125, 127),
    Edit::Swap(1),
    Edit::Swap(127),
    Edit::Group(0, 127),
    Edit::Group(0, 127),
    Edit::Group(0, 1),
    Edit::Group(1, 127),
    Edit::Swap(2),
    Edit::Swap(126),
    Edit::Ungroup(0, 127),
    Edit::Ungroup(0, 127),
];

// The steps 0 and 1 are a block by now.
const FILLING: [Edit<'static>; 13] = [
    Edit::Replace(128, 128, &[]),
    Edit::Replace(126, 127, &[]),
    Edit::Replace(5, 5, &[]),
    Edit::Replace(5, 5, &[u32::MAX, 0]),
    Edit::Replace(5, 5, &[3, 3]),
    Edit::Replace(5, 5, &[u32::MAX]),
    Edit::Replace(5, 5, &[3]),
    Edit::Replace(5, 5, &[1]),
    Edit::Replace(0, 1, &[4, 4, 4]),
    Edit::Replace(0, 1, &[2, 1]),
    Edit::Replace(0, 1, &[2]),
    Edit::Replace(126, 126, &[4, 4, 4]),
    Edit::Replace(126, 126, &[4, 2]),
];

// Long lists for one position and for all.
const LONG: [Edit<'static>; 7] = [
    Edit::Replace(5, 5, &[4; 128]),
    Edit::Replace(5, 5, &[4; 129]),
    Edit::Group(0, 127),
    Edit::Replace(0, 127, &[4; 129]),
    Edit::Replace(0, 127, &[4; 128]),
    Edit::Replace(0, 127, &[u32::MAX; 128]),
    Edit::Replace(0, 127, &[4; 128]),
];

// The same for a sheet of one step.
const LONG_FOR_ONE: [Edit<'static>; 6] = [
    Edit::Replace(0, 0, &[u32::MAX; 129]),
    Edit::Replace(0, 0, &[u32::MAX; 128]),
    Edit::Replace(0, 0, &[3; 128]),
    Edit::Replace(0, 0, &[2; 128]),
    Edit::Replace(0, 127, &[4]),
    Edit::Replace(0, 0, &[4; 128]),
];

pub fn rehearse_full_sheets(rt: &HostRuntime) -> anyhow::Result<()> {
    // Not by `on_idle`, since two plans that are refused come first.
    println!(rt; "-- full sheets")?;
    let task = idle();
    let book = Rehearsal::by_book(rt, &task);
    book.lay(&[u32::MAX; 129])?;
    book.lay(&[u32::MAX; 128])?;
    book.on_laid(&[0; 128], |sheet| {
        rehearse_number(&book, sheet, 127)?;
        rehearse_number(&book, sheet, 128)?;
        book.edits(sheet, &SHAPING)?;
        book.edits(sheet, &FILLING)?;
        book.edits(sheet, &LONG)
    })?;
    book.on_laid(&[3], |sheet| book.edits(sheet, &LONG_FOR_ONE))
}
