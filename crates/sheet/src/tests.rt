use crate::*;
use std::test::Fail;
use task::{Action, BookTariff, Facts, Tariff, Task};

fn fact(f: usize) -> Facts {
    let mut facts = Facts::empty();
    facts.insert(f);
    facts
}

// Fact 0 stands at the start. Action 0 needs, deletes and adds it, action 1 needs and deletes it.
fn small_task(goal: usize) -> Task {
    let mut task = Task::new();
    for (adds, price) in [(fact(0), 5), (Facts::empty(), 7)] {
        if let Some(action) = Action::new(fact(0), adds, fact(0), price) {
            let _ = task.add_action(action);
        }
    }
    task.start = fact(0);
    task.goal = fact(goal);
    task
}

#[test]
fn lays_and_refuses(rt: HostRuntime) {
    let cases: [(usize, &[u32], Option<SheetFault>); 8] = [
        (0, &[], None),
        (1, &[], Some(SheetFault::WantingFact { place: 0, fact: 1 })),
        (0, &[0], None),
        (0, &[1], Some(SheetFault::WantingFact { place: 1, fact: 0 })),
        (
            0,
            &[1, 0],
            Some(SheetFault::WantingFact { place: 1, fact: 0 }),
        ),
        (0, &[1, 2, 0, 700], Some(SheetFault::UnknownAction(2))),
        (0, &[0; 128], None),
        (0, &[700; 129], Some(SheetFault::TooLong)),
    ];
    for (goal, plan, fault) in cases {
        assert_eq!(rt; lay(&small_task(goal), plan).err(), fault);
    }
}

#[test]
fn answers_questions(rt: HostRuntime) -> Result<(), Fail> {
    let task = small_task(0);
    let sheet = lay(&task, &[0, 0, 0])?;
    assert_eq!(rt; sheet.steps(), 3);
    assert_eq!(rt; (sheet.action(2), sheet.action(3)), (Some(0), None));
    for (i, j, tied, part) in [
        (0, 1, true, Some((0, 0))),
        (2, 0, false, Some((2, 2))),
        (1, 1, false, None),
        (2, 3, false, None),
    ] {
        assert_eq!(rt; (sheet.is_tied(i, j), sheet.is_block(i, j)), (tied, false));
        assert_eq!(rt; sheet.part(i, j), part);
    }
    assert_eq!(rt; sheet.price(&BookTariff { task: &task }), 15);
    Ok(())
}
