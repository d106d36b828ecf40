// All running orders of a sheet, by their definition: every order of the positions is tried. The tests of the lists stand in
// `exhaustive`.
ghost use Rattle.std.specs.Prelude.{◌≡◌, ℕ, ◌^◌, ◌-◌, List, [], length, min, nat_lt, true};
ghost use Rattle.std.specs.List.{All};
ghost use Rattle.sets.specs.Contents.{contents};
ghost use Rattle.comparing.specs.Orders.{KeepsTies, factorial, place, positions, ties};

use crate::lists::{MOST_STEPS, Pair, Run};
use crate::model::Model;
use sets::list::ArrayVec;

// There are 720 orders of six positions.
const MOST_ORDERS: usize = 720;

/// What an order keeps a position as: a number, or a byte, which takes an eighth of the room.
pub trait Position: Copy {
    ghost numbers: { Self → ℕ };

    ghost highest: { ℕ };

    /// The position x, or the highest that can be kept, where x is higher.
    fn saturating_from(x: usize) -> Self
        ensures { numbers result ≡ min x highest };

    /// The position that is kept.
    fn number(self) -> usize
        ensures { result ≡ numbers self };
}

impl Position for usize {
    ghost numbers = { λ position. position };

    ghost highest = { 2 ^ 64 - 1 };

    fn saturating_from(x: usize) -> Self {
        x
    }

    fn number(self) -> usize {
        self
    }
}

impl Position for u8 {
    ghost numbers = { λ position. position };

    ghost highest = { 255 };

    fn saturating_from(x: usize) -> Self {
        u8::try_from(x).unwrap_or(u8::MAX)
    }

    fn number(self) -> usize {
        usize::from(self)
    }
}

/// The positions, first to last. Bytes serve lists of orders: a list has room for 720, and is copied with its sheet.
#[derive(Clone, Copy)]
pub struct Order<P: Position = usize> {
    positions: ArrayVec<P, MOST_STEPS>,
}

impl Order {
    /// The positions, first to last.
    pub fn as_slice(&self) -> &[usize]
        ensures { result.now ≡ positions self.now }
    {
        Order::positions(self)
    }
}

impl<P: Position> Order<P> {
    fn empty() -> Self
        ensures { positions result ≡ [] }
    {
        Order {
            positions: ArrayVec::new(P::saturating_from(0)),
        }
    }

    // The `index`-th order of n positions, by the digits of the index. Each step changes the order and the digits.
    fn at(index: usize, n: usize) -> Self
        ensures { length (positions result) ≡ min n MOST_STEPS }
    {
        let mut order = Order::empty();
        let mut digits = index;
        for k in 0..n {
            let left = n - k;
            let next = order.absent(n, digits % left);
            let _ = order.positions.push(P::saturating_from(next));
            digits /= left;
        }
        order
    }

    /// The positions, first to last, as they are kept.
    pub fn positions(&self) -> &[P]
        ensures { result.now ≡ positions self.now }
    {
        self.positions.as_slice()
    }

    // The position that `skipped` others come ahead of, among those that it lacks.
    fn absent(&self, n: usize, skipped: usize) -> usize {
        (0..n)
            .filter(|x| self.positions().iter().all(|y| y.number() != *x))
            .nth(skipped)
            .unwrap_or(n)
    }

    // The place of x, the number of places where it has none.
    fn place(&self, x: usize) -> usize
        ensures { result ≡ place P.Position.numbers self.now x }
    {
        let positions = self.positions();
        positions
            .iter()
            .position(|y| y.number() == x)
            .unwrap_or(positions.len())
    }

    // Whether nothing foreign stands between the first and the last position of the block.
    fn keeps_together(&self, block: &Run) -> bool {
        let from_first = self
            .positions()
            .iter()
            .skip_while(|x| !block.has(x.number()));
        !from_first
            .skip_while(|x| block.has(x.number()))
            .any(|x| block.has(x.number()))
    }

    // Whether every tie is kept.
    fn keeps_ties(&self, pairs: &[Pair]) -> bool
        ensures { result ≡ true → KeepsTies P.Position.numbers pairs.now self.now }
    {
        pairs.iter().all(
            |tie: &Pair| -> bool
                ensures { result ≡ nat_lt (place P.Position.numbers self.entry.now tie.now.0)
                    (place P.Position.numbers self.entry.now tie.now.1) }
            { self.place(tie.0) < self.place(tie.1) },
        )
    }

    // Whether i comes before j wherever i is tied before j, and every block stays together.
    fn is_permitted(&self, model: &Model) -> bool
        ensures { result ≡ true → KeepsTies P.Position.numbers (ties model.now) self.now }
    {
        self.keeps_ties(model.ties.as_slice())
            && model
                .blocks()
                .iter()
                .all(|block| self.keeps_together(block))
    }
}

// How many orders n positions have, or the highest number where they have more.
fn factorial(n: usize) -> usize
    ensures { result ≡ min (factorial n) (2 ^ 64 - 1) }
{
    (0..n).fold(
        1,
        |product: usize, k| product.saturating_mul(k.saturating_add(1)),
    )
}

/// The orders of n positions, each position kept as a `P`: as many as there are, or the first 720 that are made, with the first
/// `MOST_STEPS` positions of each. It takes a turn for each of the n! orders, 2^64 - 1 turns from 21 positions on.
pub fn every_order_as<P: Position>(n: usize) -> ArrayVec<Order<P>, MOST_ORDERS>
    ensures count { length (contents result) ≡ min (factorial n) MOST_ORDERS }
    ensures full { All (λ order. length (positions order) ≡ min n MOST_STEPS) (contents result) }
{
    let mut every = ArrayVec::new(Order::empty());
    for index in 0..factorial(n) {
        let _ = every.push(Order::at(index, n));
    }
    every
}

/// The orders of n positions, each position a number, as `every_order_as` makes them.
pub fn every_order(n: usize) -> ArrayVec<Order, MOST_ORDERS>
    ensures count { length (contents result) ≡ min (factorial n) MOST_ORDERS }
    ensures full { All (λ order. length (positions order) ≡ min n MOST_STEPS) (contents result) }
{
    every_order_as(n)
}

/// A sheet with its running orders.
#[derive(Drop)]
pub struct Orders<'a, P: Position = usize> {
    pub(crate) model: &'a Model,
    pub all: ArrayVec<Order<P>, MOST_ORDERS>,
}

impl<'a, P: Position> Orders<'a, P> {
    /// The running orders of the sheet, each position kept as a `P`. Each keeps the ties.
    pub fn permitted_by(model: &'a Model) -> Self
        ensures { All (KeepsTies P.Position.numbers (ties model.now)) (contents result.all) }
    {
        let n = model.steps();
        let mut all = ArrayVec::new(Order::empty());
        // Not by `every_order_as`: a second list of 720 orders for each sheet would be filled for nothing.
        for index in 0..factorial(n) {
            let order = Order::at(index, n);
            if order.is_permitted(model) {
                let _ = all.push(order);
            }
        }
        Orders { model, all }
    }
}

impl<'a> Orders<'a> {
    /// The running orders of the sheet, each position a number. Each keeps the ties.
    pub fn of(model: &'a Model) -> Self
        ensures { All (KeepsTies (λ position. position) (ties model.now)) (contents result.all) }
    {
        Self::permitted_by(model)
    }
}
