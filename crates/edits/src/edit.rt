// An edit, by its call's numbers.

/// What a sheet is asked for; a replacement's list is one of action numbers. No generic enum stands for this one and that of
/// `records`: only `orders` lies below both crates, which holds theorems and no code, and a `match` would still turn the one
/// into the other, since the text that a book has for a list has to become one.
#[derive(Clone, Copy)]
pub enum Edit<'a> {
    /// The parts of the position before this one and of this one change places.
    Swap(usize),
    /// From the first to the last position becomes a block.
    Group(usize, usize),
    /// The block from the first to the last position ends.
    Ungroup(usize, usize),
    /// The ties from the part of the first position to the part of the second are dropped.
    Loosen(usize, usize),
    /// The list takes the place of the first to the last position.
    Replace(usize, usize, &'a [u32]),
}
