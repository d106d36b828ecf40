// A run of positions of a sheet.
ghost use Rattle.std.specs.Prelude.{◌≡◌, ℕ, ◌<◌, ◌&&◌, MatchOption, nat_lt};
ghost use Rattle.shaping.specs.Answers.{InOrder, NotInOrder, crosses};
ghost use Rattle.orders.specs.Check.{inside};
ghost use Rattle.sets.specs.Member.{member};
ghost use Rattle.sheet.specs.Sheets.{outline};

use sets::bits::BitSet;
use sheet::Sheet;

// The positions `first` to `last`, two or more. The edits take the sheet and two numbers one by one, as they are called, and make a
// run of them at once. That the steps stay, each sheet that is made of a run says of itself.
#[derive(Clone, Copy)]
pub(crate) struct Run<'s> {
    pub(crate) sheet: &'s Sheet,
    pub(crate) first: usize,
    pub(crate) last: usize,
    ghost order: { InOrder (outline sheet.now) first last },
    ghost room: { last < 128 },
}

impl<'s> Run<'s> {
    // From `a` to `b`; None unless they are positions of the sheet in that order.
    pub(crate) fn of(sheet: &'s Sheet, a: usize, b: usize) -> Option<Run<'s>>
        ensures { MatchOption result
            (NotInOrder (outline sheet.now) a b)
            (λ run. (run.sheet.now ≡ sheet.now) × (run.first ≡ a) × (run.last ≡ b)) }
    {
        // By an `if`: what is made owes the test, and `then_some` would make it whatever the test says.
        if a < b && b < sheet.steps() {
            Some(Run {
                sheet,
                first: a,
                last: b,
            })
        } else {
            None
        }
    }

    pub(crate) fn positions(&self) -> BitSet<2>
        ensures { (x : ℕ) → member result.words x ≡ inside self.now.first self.now.last x }
    {
        BitSet::range(self.first, self.last + 1)
    }

    // The last positions with which a run from `c` on crosses this one.
    pub(crate) fn crossing_ends(&self, c: usize) -> BitSet<2>
        ensures { (d : ℕ) → member result.words d ≡ (crosses self.now.first self.now.last c d && nat_lt d 128) }
    {
        if c < self.first {
            BitSet::range(self.first, self.last)
        } else if self.first < c && c <= self.last {
            BitSet::range(self.last + 1, 128)
        } else {
            BitSet::empty()
        }
    }
}
