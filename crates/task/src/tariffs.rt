// Tariffs: prices of actions by their numbers, and the price of a list of actions.
ghost use Rattle.std.specs.Iterator.{AlwaysYields, IsFinite};
ghost use Rattle.std.specs.Prelude.{◌≡◌, ℕ, ◌%◌, ◌^◌, ◌<◌, ◌≤◌, List, length, sum_by, MatchResult};
ghost use Rattle.sets.specs.Contents.{contents};
ghost use Rattle.task.specs.Lawful.{book_lawful, touch_lawful};
ghost use Rattle.task.specs.Prices.{Lawful, priced, touches};

use crate::actions::{Action, Facts};
use crate::tasks::{LONGEST_LIST, Plan, Task};

/// A price for each action, by its number.
pub trait Tariff {
    /// No price of this kind of tariff is higher.
    const HIGHEST: u32;

    ghost highest: { ℕ };

    ghost prices: { Self → ℕ → ℕ };

    /// The price of the action of that number; 0 for a number above 127.
    fn price(&self, action: u32) -> u32
        ensures { result ≡ prices self.now action };

    /// `HIGHEST`, tied to `highest` by a function: for a type that borrows, the constant itself cannot be.
    fn most() -> u32
        ensures { result ≡ highest };

    ghost lawful: { (t : Self) → Lawful highest (prices t) };
}

/// The prices that the task gives its actions.
#[derive(Clone, Copy)]
pub struct BookTariff<'a> {
    pub task: &'a Task,
}

impl Tariff for BookTariff<'_> {
    const HIGHEST: u32 = Action::HIGHEST_PRICE;

    ghost prices = { λ t. priced (λ a. a.price) t.task.now };

    ghost highest = { 1000000 };

    ghost lawful = { λ t. book_lawful t.task.now };

    fn price(&self, action: u32) -> u32 {
        self.task.action(action).map_or(0, |a| a.price)
    }

    fn most() -> u32
        ensures { result ≡ 1000000 }
    {
        Self::HIGHEST
    }
}

/// An action costs as many as it adds or deletes of the marked facts.
#[derive(Clone, Copy)]
pub struct TouchTariff<'a> {
    pub task: &'a Task,
    pub marked: Facts,
}

impl Tariff for TouchTariff<'_> {
    const HIGHEST: u32 = 64;

    ghost prices = { λ t. priced (touches t.marked) t.task.now };

    ghost highest = { 64 };

    ghost lawful = { λ t. touch_lawful t.marked t.task.now };

    fn price(&self, action: u32) -> u32 {
        // With `map_or` the promise stayed open.
        match self.task.action(action) {
            Some(a) => self.marked.intersection(&a.adds.union(&a.deletes)).count() as u32,
            None => 0,
        }
    }

    fn most() -> u32
        ensures { result ≡ 64 }
    {
        Self::HIGHEST
    }
}

/// The refusal of a list with more entries than a plan can have.
#[derive(Clone, Copy, Debug, PartialEq, Eq)]
pub struct TooLong;

impl TooLong {
    const NUMBER: u32 = 4;

    /// The number that the refusal goes by: 4.
    pub fn number(&self) -> u32
        ensures { result ≡ 4 }
    {
        Self::NUMBER
    }
}

/// The sum of the prices of the actions whose numbers come, each as often as it comes, without the multiples of 2^32 that it
/// has; 128 actions cost less than one.
pub fn price_of<T: Tariff, I: Iterator<Item = u32>>(tariff: &T, actions: I) -> u32
    requires can { I.can_next actions }
    requires finite { IsFinite (I.remaining actions) }
    ensures { (all : List ℕ) → AlwaysYields I.next_gives (λ x. x) actions all →
        result ≡ sum_by (T.Tariff.prices tariff.now) all % 2 ^ 32 }
{
    let mut sum: u32 = 0;
    for action in actions {
        sum = sum.wrapping_add(tariff.price(action));
    }
    sum
}

/// The sum of the prices of the plan's actions, each as often as it stands there.
pub fn price_of_plan<T: Tariff>(tariff: &T, plan: &Plan) -> u32
    ensures { result ≡ sum_by (T.Tariff.prices tariff.now) (contents plan.now) }
{
    price_of(tariff, plan.as_slice().iter().copied())
}

/// The same for a list, which may be longer than any plan.
pub fn price_of_list<T: Tariff>(tariff: &T, list: &[u32]) -> Result<u32, TooLong>
    ensures { MatchResult result
        (λ sum. (length list.now ≤ 128) × (sum ≡ sum_by (T.Tariff.prices tariff.now) list.now))
        (λ _. 128 < length list.now) }
{
    if list.len() > LONGEST_LIST {
        return Err(TooLong);
    }
    Ok(price_of(tariff, list.iter().copied()))
}
