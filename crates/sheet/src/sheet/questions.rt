// What can be asked of a sheet.
ghost use Rattle.std.specs.Prelude.{◌≡◌, sum_by};
ghost use Rattle.std.specs.List.{slice_get};
ghost use Rattle.sets.specs.Contents.{contents};
ghost use Rattle.sheet.specs.Sheets.{actions, outline};

use super::Sheet;
use task::{Plan, Tariff, price_of};

impl Sheet {
    /// How many steps there are.
    pub fn steps(&self) -> usize
        ensures { result ≡ (outline self.now).size }
    {
        self.steps.len()
    }

    /// The action numbers of the steps, first to last.
    pub fn actions(&self) -> &[u8]
        ensures { result.now ≡ actions self.now }
    {
        self.steps.as_slice()
    }

    /// The same, as wide as the numbers of a plan.
    pub fn numbers(&self) -> Plan
        ensures { contents result ≡ actions self.now }
    {
        Plan::collect(0, self.actions().iter().copied().map(u32::from))
    }

    /// The action number of the step at `i`; None where there is no such position.
    pub fn action(&self, i: usize) -> Option<u32>
        ensures { result ≡ slice_get (actions self.now) i }
    {
        self.steps.get(i).map(|number| u32::from(number))
    }

    /// Whether `i` is tied before `j`.
    pub fn is_tied(&self, i: usize, j: usize) -> bool
        ensures { result ≡ (outline self.now).tied i j }
    {
        self.behind.has(i, j)
    }

    /// Whether the positions `a` to `b` are a block.
    pub fn is_block(&self, a: usize, b: usize) -> bool
        ensures { result ≡ (outline self.now).block a b }
    {
        self.blocks.has(a, b)
    }

    /// The sum of the prices of its steps.
    pub fn price<T: Tariff>(&self, tariff: &T) -> u32
        ensures { result ≡ sum_by (T.Tariff.prices tariff.now) (actions self.now) }
    {
        price_of(tariff, self.actions().iter().copied().map(u32::from))
    }
}
