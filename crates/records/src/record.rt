// What a line of the book says, with its name and its lists as parts of the text.
use crate::word::Word;

/// An action's line; its sets are texts of rising fact numbers.
#[derive(Clone, Copy, Debug)]
pub struct Act<'a> {
    pub name: &'a [u8],
    pub price: u32,
    pub needs: &'a [u8],
    pub adds: &'a [u8],
    pub deletes: &'a [u8],
}

/// Which of the two sets of facts a line gives.
#[derive(Clone, Copy, Debug, PartialEq)]
pub enum Side {
    /// The facts that stand at the start.
    Start,
    /// The facts that are to stand at the end.
    Goal,
}

/// An edit of the sheet; a replacement's list is a text of action numbers. No generic enum stands for this one and that of
/// `edits`: only `orders` lies below both crates, which holds theorems and no code, and a `match` would still turn the one into
/// the other, since the text has to become a list.
#[derive(Clone, Copy, Debug)]
pub enum Edit<'a> {
    /// The position behind the two that change places.
    Swap(u32),
    /// The first and the last position.
    Group(u32, u32),
    /// The first and the last position.
    Ungroup(u32, u32),
    /// Two positions, the one tied before the other.
    Loosen(u32, u32),
    /// The first and the last position, and the text of the list.
    Replace(u32, u32, &'a [u8]),
}

/// What a line says.
#[derive(Clone, Copy, Debug)]
pub enum Record<'a> {
    /// The name of a fact.
    Fact(&'a [u8]),
    /// An action.
    Act(Act<'a>),
    /// The text of the facts at the start, or of the goal.
    Set(Side, &'a [u8]),
    /// The action number of a step of the plan.
    Step(u32),
    /// An edit of the sheet.
    Edit(Edit<'a>),
}
