// Short lists, pairs and runs of positions.
use sets::list::ArrayVec;

// All orders of more steps would take too long.
pub const MOST_STEPS: usize = 6;

// The action numbers of a small sheet's steps, or of a list that fits it.
pub(crate) type Actions = ArrayVec<u32, MOST_STEPS>;

// Room for every pair of places: of positions and the place after the last.
const MOST_PAIRS: usize = (MOST_STEPS + 1) * (MOST_STEPS + 1);

// Two positions, the one ahead of the other where they are tied.
pub type Pair = (usize, usize);

pub(crate) type Pairs = ArrayVec<Pair, MOST_PAIRS>;

pub(crate) type Runs = ArrayVec<Run, MOST_PAIRS>;

// The positions `first` to `last`.
#[derive(Clone, Copy, Debug, PartialEq, Eq)]
pub struct Run {
    pub first: usize,
    pub last: usize,
}

impl Run {
    pub(crate) fn of(x: usize) -> Self {
        Run { first: x, last: x }
    }

    pub fn has(&self, x: usize) -> bool {
        (self.first..=self.last).contains(&x)
    }

    pub(crate) fn is_within(&self, outer: &Self) -> bool {
        outer.first <= self.first && self.last <= outer.last
    }

    pub(crate) fn overlaps(&self, other: &Self) -> bool {
        self.first <= other.last && other.first <= self.last
    }

    // How many positions it has behind the first.
    pub(crate) fn reach(&self) -> usize {
        self.last.saturating_sub(self.first)
    }
}

impl From<Pair> for Run {
    fn from((first, last): Pair) -> Self {
        Run { first, last }
    }
}

// All pairs of numbers below `n`.
pub(crate) fn pairs(n: usize) -> Pairs {
    ArrayVec::collect((0, 0), (0..n).flat_map(|i| (0..n).map(move |j| (i, j))))
}

// The pairs of numbers below `n` that pass.
pub(crate) fn pairs_where<F: Fn(Pair) -> bool>(n: usize, passes: F) -> Pairs
    requires { F.IsAlwaysCallable passes }
{
    let all = pairs(n);
    let passing = all.as_slice().iter().copied().filter(|pair| passes(*pair));
    ArrayVec::collect((0, 0), passing)
}
