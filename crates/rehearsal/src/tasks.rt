// The tasks that are rehearsed.
use task::{Action, Facts, Task};

// An action by its price and the facts that it needs, adds and deletes.
#[derive(Clone, Copy)]
struct Row(u32, &'static [usize], &'static [usize], &'static [usize]);

// Two discs are captured, one after the other, in one drive. Facts: the drive is empty, disc 1 or 2 is in it, disc 1 or 2
// is captured. Action 6 captures disc 1 for less.
const WEEK: [Row; 7] = [
    Row(20, &[0], &[1], &[0]),
    Row(300, &[1], &[3], &[]),
    Row(10, &[1], &[0], &[1]),
    Row(20, &[0], &[2], &[0]),
    Row(300, &[2], &[4], &[]),
    Row(10, &[2], &[0], &[2]),
    Row(240, &[1], &[3], &[]),
];

const WEEK_FACTS: usize = 5;

// Actions that need nothing and do nothing.
const IDLE: [Row; 5] = [
    Row(3, &[], &[], &[]),
    Row(2, &[], &[], &[]),
    Row(1, &[], &[], &[]),
    Row(1_000_000, &[], &[], &[]),
    Row(0, &[], &[], &[]),
];

// The tests of `task` have this line too: a public function would serve these two places alone.
pub fn set_of(facts: &[usize]) -> Facts {
    Facts::below_where(Task::MOST_FACTS, |fact| facts.contains(&fact))
}

fn with_actions(rows: &[Row]) -> Task {
    let mut task = Task::new();
    for _ in 0..WEEK_FACTS {
        let _ = task.add_fact();
    }
    for Row(price, needs, adds, deletes) in rows {
        if let Some(action) = Action::new(set_of(needs), set_of(adds), set_of(deletes), *price) {
            let _ = task.add_action(action);
        }
    }
    task
}

fn with_ends(rows: &[Row], goal: &[usize]) -> Task {
    let mut task = with_actions(rows);
    task.start = set_of(&[0]);
    task.goal = set_of(goal);
    task
}

pub fn week() -> Task {
    with_ends(&WEEK, &[3, 4])
}

// The week without the actions from number 4 on.
pub fn short_week() -> Task {
    let rows = &WEEK[..];
    with_ends(&rows[0..4], &[3, 4])
}

// The week where disc 2 is captured only once disc 1 is.
pub fn strict_week() -> Task {
    let mut rows = WEEK;
    rows[4] = Row(300, &[2, 3], &[4], &[]);
    with_ends(&rows, &[3, 4])
}

// The week that is to end with disc 1 in the drive.
pub fn other_goal() -> Task {
    with_ends(&WEEK, &[1, 3, 4])
}

pub fn idle() -> Task {
    with_actions(&IDLE)
}
