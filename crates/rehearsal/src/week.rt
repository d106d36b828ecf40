// The small week, and what other tasks say of its sheet.
use crate::tasks::{other_goal, set_of, short_week, strict_week, week};
use crate::telling::Rehearsal;
use edits::{Edit, apply};
use sheet::{Sheet, lay};
use task::{BookTariff, Task, TouchTariff};

const PLAN: [u32; 6] = [0, 1, 2, 3, 4, 5];

// The two captures become blocks that may come in either order.
const PARTED: [Edit<'static>; 3] = [Edit::Group(0, 2), Edit::Group(3, 5), Edit::Loosen(2, 3)];

fn rehearse_edits(book: &Rehearsal<'_, BookTariff<'_>>, sheet: &mut Sheet) -> anyhow::Result<()> {
    let edits = [
        Edit::Replace(0, 2, &[0, 6]),
        Edit::Group(1, 3),
        Edit::Group(0, 2),
        Edit::Swap(1),
        Edit::Ungroup(0, 2),
        Edit::Loosen(0, 1),
        Edit::Replace(0, 2, &[1, 1]),
    ];
    book.edits(sheet, &[Edit::Loosen(2, 3), Edit::Loosen(0, 2)])?;
    book.edits(sheet, &PARTED)?;
    book.edits(sheet, &edits)
}

fn rehearse_touches(rt: &HostRuntime, task: &Task, sheet: &mut Sheet) -> anyhow::Result<()> {
    println!(rt; "-- priced by touches of fact 0")?;
    let touch = TouchTariff {
        task,
        marked: set_of(&[0]),
    };
    let edits = [
        Edit::Replace(1, 1, &[6]),
        Edit::Replace(0, 2, &[0, 6, 2]),
        Edit::Replace(0, 2, &[0, 6]),
    ];
    Rehearsal::new(rt, task, touch).edits(sheet, &edits)
}

pub fn rehearse_week(rt: &HostRuntime) -> anyhow::Result<()> {
    println!(rt; "-- the small week")?;
    let task = week();
    let book = Rehearsal::by_book(rt, &task);
    book.lay(&[3, 0])?;
    book.lay(&[0, 1, 2])?;
    book.lay(&[0, 7, 8])?;
    let edits = [
        Edit::Swap(3),
        Edit::Swap(3),
        Edit::Replace(0, 2, &[0, 6, 2]),
    ];
    book.on_laid(&PLAN, |sheet| {
        rehearse_edits(&book, sheet)?;
        rehearse_touches(rt, &task, sheet)?;
        println!(rt; "-- priced by the book again")?;
        book.edits_and_sheets(sheet, &edits)?;
        book.check(sheet)
    })
}

// The week's sheet with its two blocks.
fn parted_week() -> Option<Sheet> {
    let task = week();
    let mut sheet = lay(&task, &PLAN).ok()?;
    for edit in &PARTED {
        let _ = apply(&mut sheet, &task, &BookTariff { task: &task }, *edit);
    }
    Some(sheet)
}

// What is asked under each of the other tasks.
const ASKED: [Edit<'static>; 9] = [
    Edit::Ungroup(0, 2),
    Edit::Loosen(0, 1),
    Edit::Replace(1, 1, &[6]),
    Edit::Replace(1, 1, &[1]),
    Edit::Replace(0, 0, &[u32::MAX]),
    Edit::Replace(1, 1, &[]),
    Edit::Swap(3),
    Edit::Group(0, 5),
    Edit::Ungroup(0, 5),
];

fn rehearse_under(rt: &HostRuntime, name: &str, task: &Task) -> anyhow::Result<()> {
    println!(rt; "-- the week's sheet under {name}")?;
    // Where there is no sheet nothing is asked, and that is no fault.
    let Some(mut sheet) = parted_week() else {
        return Ok(());
    };
    let book = Rehearsal::by_book(rt, task);
    book.check(&sheet)?;
    book.edits(&mut sheet, &ASKED)
}

pub fn rehearse_other_tasks(rt: &HostRuntime) -> anyhow::Result<()> {
    rehearse_under(rt, "fewer actions", &short_week())?;
    rehearse_under(rt, "other needs", &strict_week())?;
    rehearse_under(rt, "another goal", &other_goal())
}
