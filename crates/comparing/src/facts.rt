// Sets of facts, kept a second time as plain numbers.
use crate::random::Random;
use task::Facts;

pub(crate) const FACTS: usize = 3;

// As many as there are sets of three facts.
const SETS: usize = 8;

// Bit f of the number is fact f.
#[derive(Clone, Copy, Debug, PartialEq, Eq)]
pub struct PlainFacts(usize);

impl PlainFacts {
    pub const NONE: Self = PlainFacts(0);

    const ALL: Self = PlainFacts(SETS - 1);

    pub fn any(random: &mut Random) -> Self {
        PlainFacts(random.below(SETS))
    }

    // Few facts: most of these sets have none or one.
    pub(crate) fn few(random: &mut Random) -> Self {
        let one = Self::any(random);
        let other = Self::any(random);
        let third = Self::any(random);
        one.shared(other).shared(third)
    }

    fn has(self, fact: usize) -> bool {
        fact < FACTS && (self.0 >> fact) % 2 == 1
    }

    pub(crate) fn with(self, other: Self) -> Self {
        PlainFacts(self.0 | other.0)
    }

    pub(crate) fn shared(self, other: Self) -> Self {
        PlainFacts(self.0 & other.0)
    }

    pub fn without(self, other: Self) -> Self {
        self.shared(other.others())
    }

    // All facts that are not in it.
    pub(crate) fn others(self) -> Self {
        PlainFacts(self.0 ^ Self::ALL.0)
    }

    pub fn lowest(self) -> Option<usize> {
        (0..FACTS).find(|fact| self.has(*fact))
    }

    pub(crate) fn count(self) -> u32 {
        self.0.count_ones()
    }
}

impl From<PlainFacts> for Facts {
    fn from(plain: PlainFacts) -> Facts {
        Facts::below_where(FACTS, |fact| plain.has(fact))
    }
}
