use crate::*;
use std::test::Fail;

fn facts(members: &[usize]) -> Facts {
    Facts::below_where(Task::MOST_FACTS, |f| members.contains(&f))
}

// It adds 1 and 2 and deletes 1 and 3.
fn change(price: u32) -> Option<Action> {
    Action::new(Facts::empty(), facts(&[1, 2]), facts(&[1, 3]), price)
}

// As many such actions as there is room for, the first one free and the others at 10.
fn full_task() -> Option<Task> {
    let mut task = Task::new();
    let _ = task.add_action(change(0)?);
    for _ in 0..128 {
        let _ = task.add_action(change(10)?);
    }
    Some(task)
}

#[test]
fn performs(rt: HostRuntime) -> Result<(), Fail> {
    let Some(action) = change(1_000_000) else {
        return Err(Fail::new("the price is refused"));
    };
    let after = action.perform(&facts(&[0, 1, 3]));
    for (fact, stands) in [
        (0, true),
        (1, true),
        (2, true),
        (3, false),
        (4, false),
        (64, false),
    ] {
        assert_eq!(rt; after.has(fact), stands);
    }
    assert!(rt; change(1_000_001).is_none());
    Ok(())
}

#[test]
fn prices(rt: HostRuntime) -> Result<(), Fail> {
    let Some(task) = full_task() else {
        return Err(Fail::new("a price is refused"));
    };
    let book = BookTariff { task: &task };
    let touch = TouchTariff {
        task: &task,
        marked: facts(&[0, 1, 3, 9]),
    };
    for (action, price, touches) in [
        (0, 0, 2),
        (1, 10, 2),
        (127, 10, 2),
        (128, 0, 0),
        (4_294_967_295, 0, 0),
    ] {
        assert_eq!(rt; book.price(action), price);
        assert_eq!(rt; touch.price(action), touches);
    }
    assert_eq!(rt; price_of_list(&book, &[127; 128]), Ok(1280));
    assert_eq!(rt; price_of_list(&touch, &[127; 128]), Ok(256));
    assert_eq!(rt; price_of_list(&book, &[128; 129]), Err(TooLong));
    Ok(())
}

#[test]
fn counts_facts(rt: HostRuntime) {
    let mut task = Task::new();
    for _ in 0..64 {
        assert!(rt; task.add_fact().is_ok());
    }
    assert_eq!(rt; task.add_fact(), Err(Full));
    assert_eq!(rt; task.facts, 64);
}
