// What can be seen of a run between two calls.
use sets::bits::BitSet;

#[derive(Clone, Copy, PartialEq, Eq)]
pub struct Seen {
    pub taken: Option<usize>,
    // What the slip of the run bears.
    pub borne: Option<usize>,
    pub done: BitSet<2>,
    // Asked position by position.
    pub open: BitSet<2>,
    // Asked at once.
    pub open_positions: BitSet<2>,
    // Whether a number that is no position is open or done.
    pub has_far: bool,
    pub is_finished: bool,
}
