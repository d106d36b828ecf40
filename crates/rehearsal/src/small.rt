// Small sheets: numbers far out of range, no steps, odd lists, and blocks in blocks.
use crate::tasks::idle;
use crate::telling::Rehearsal;
use edits::Edit;
use sheet::Sheet;
use task::BookTariff;

// Numbers that are no position of four steps, and the last position.
const NUMBERS: [usize; 5] = [usize::MAX, u32::MAX as usize, 128, 4, 3];

// The number in each place of each edit, each time on the sheet as it was.
pub fn rehearse_number(
    book: &Rehearsal<'_, BookTariff<'_>>,
    sheet: &Sheet,
    number: usize,
) -> anyhow::Result<()> {
    let edits = [
        Edit::Swap(number),
        Edit::Group(0, number),
        Edit::Group(number, 1),
        Edit::Group(number, number),
        Edit::Ungroup(0, number),
        Edit::Ungroup(number, 1),
        Edit::Ungroup(number, number),
        Edit::Loosen(0, number),
        Edit::Loosen(number, 1),
        Edit::Loosen(number, number),
        Edit::Replace(0, number, &[4]),
        Edit::Replace(number, 1, &[4]),
        Edit::Replace(number, number, &[4]),
    ];
    for edit in edits {
        let mut copy = *sheet;
        book.edit(&mut copy, edit)?;
    }
    Ok(())
}

// Tells the title, lays the plan under the task of idle actions, and goes on with the sheet.
fn on_idle<F: FnOnce(&Rehearsal<'_, BookTariff<'_>>, &mut Sheet) -> anyhow::Result<()>>(
    rt: &HostRuntime,
    title: &str,
    plan: &[u32],
    then: F,
) -> anyhow::Result<()>
    requires { F.IsAlwaysCallable then }
{
    println!(rt; "-- {title}")?;
    let task = idle();
    let book = Rehearsal::by_book(rt, &task);
    book.on_laid(plan, |sheet| then(&book, sheet))
}

pub fn rehearse_far_numbers(rt: &HostRuntime) -> anyhow::Result<()> {
    on_idle(rt, "numbers far out of range", &[0; 4], |book, sheet| {
        for number in NUMBERS {
            rehearse_number(book, sheet, number)?;
        }
        Ok(())
    })
}

pub fn rehearse_empty_sheet(rt: &HostRuntime) -> anyhow::Result<()> {
    let edits = [
        Edit::Swap(0),
        Edit::Swap(1),
        Edit::Group(0, 0),
        Edit::Group(0, 1),
        Edit::Ungroup(0, 1),
        Edit::Loosen(0, 1),
        Edit::Replace(0, 0, &[4]),
        Edit::Replace(0, 0, &[]),
    ];
    on_idle(rt, "no steps", &[], |book, sheet| {
        book.check(sheet)?;
        book.edits(sheet, &edits)
    })
}

pub fn rehearse_lists(rt: &HostRuntime) -> anyhow::Result<()> {
    let edits = [
        Edit::Replace(0, 0, &[u32::MAX]),
        Edit::Replace(0, 0, &[4, u32::MAX, 5]),
        Edit::Replace(0, 0, &[3, 5]),
        Edit::Replace(0, 0, &[128]),
        Edit::Replace(0, 0, &[256]),
        Edit::Replace(0, 0, &[0]),
        Edit::Replace(0, 0, &[2, 1]),
        Edit::Replace(0, 0, &[2, 2, 2]),
        Edit::Replace(0, 0, &[2, 2]),
        Edit::Replace(0, 1, &[1]),
        Edit::Replace(0, 1, &[2, 2]),
        Edit::Replace(0, 1, &[4, 2, 4]),
        Edit::Replace(0, 2, &[4, 4, 4]),
        Edit::Replace(0, 2, &[4]),
    ];
    on_idle(rt, "lists", &[0], |book, sheet| {
        book.edits(sheet, &edits)?;
        book.show(sheet)
    })
}

const NESTING: [Edit<'static>; 8] = [
    Edit::Group(1, 2),
    Edit::Group(1, 3),
    Edit::Group(0, 4),
    Edit::Group(1, 2),
    Edit::Group(2, 3),
    Edit::Group(2, 4),
    Edit::Group(3, 5),
    Edit::Group(0, 5),
];

// Each is told with the blocks that it leaves.
const CHANGES: [Edit<'static>; 10] = [
    Edit::Replace(1, 3, &[2]),
    Edit::Replace(1, 1, &[4, 4]),
    Edit::Replace(1, 2, &[4]),
    Edit::Ungroup(0, 4),
    Edit::Group(3, 4),
    Edit::Loosen(2, 4),
    Edit::Swap(4),
    Edit::Loosen(1, 2),
    Edit::Swap(2),
    Edit::Swap(1),
];

pub fn rehearse_nested_blocks(rt: &HostRuntime) -> anyhow::Result<()> {
    on_idle(rt, "blocks in blocks", &[0; 6], |book, sheet| {
        book.edits(sheet, &NESTING)?;
        book.show(sheet)?;
        book.edits_and_sheets(sheet, &CHANGES)
    })
}
