/// How far a book has been read, from the first of these to the last.
#[derive(Clone, Copy, PartialEq, Eq, PartialOrd, Ord)]
pub enum Stage {
    /// Facts may follow.
    Facts,
    /// Actions may.
    Acts,
    /// The goal has to.
    Start,
    /// Steps may.
    Steps,
    /// Edits may.
    Edits,
}
