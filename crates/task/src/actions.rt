// Facts, and the actions that put them up and take them down.
ghost use Rattle.std.specs.Prelude.{◌≡◌, ℕ, ◌<◌, ◌≤◌, false, MatchOption};

use sets::bits::BitSet;

/// A set of facts; a fact is a number from 0 to 63.
pub type Facts = BitSet<1>;

/// What can be done: the facts that it needs, adds and deletes, and its price, which is at most 1,000,000.
#[derive(Clone, Copy)]
pub struct Action {
    pub needs: Facts,
    pub adds: Facts,
    pub deletes: Facts,
    pub price: u32,
    ghost affordable: { price ≤ 1000000 },
}

impl Action {
    ghost use Rattle.sets.specs.Member.{member};
    ghost use Rattle.task.specs.Perform.{after};

    /// No action costs more.
    pub const HIGHEST_PRICE: u32 = 1_000_000;

    /// Needs nothing, changes nothing and costs nothing.
    pub fn idle() -> Action
        ensures facts { (f : ℕ) → (member result.needs.words f ≡ false) × (member result.adds.words f ≡ false) × (member result.deletes.words f ≡ false) }
        ensures price { result.price ≡ 0 }
    {
        let none = Facts::empty();
        Action {
            needs: none,
            adds: none,
            deletes: none,
            price: 0,
        }
    }

    /// None exactly where the price is too high.
    pub fn new(needs: Facts, adds: Facts, deletes: Facts, price: u32) -> Option<Action>
        ensures { MatchOption result (1000000 < price)
            (λ a. (price ≤ 1000000) × (a.needs ≡ needs) × (a.adds ≡ adds) × (a.deletes ≡ deletes) × (a.price ≡ price)) }
    {
        // By an `if`: what is made owes the test, and `then_some` would make it whatever the test says.
        if price <= Self::HIGHEST_PRICE {
            Some(Action {
                needs,
                adds,
                deletes,
                price,
            })
        } else {
            None
        }
    }

    /// The facts that stand once the action is performed: a fact that it both deletes and adds is one of them.
    pub fn perform(&self, standing: &Facts) -> Facts
        ensures { (f : ℕ) → member result.words f ≡ after self.now (member standing.now.words) f }
    {
        standing.minus(&self.deletes).union(&self.adds)
    }
}
