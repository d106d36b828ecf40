// What can be said to a caller: a reply to write, and a refusal.

ghost use Rattle.std.specs.Prelude.{◌≡◌};

/// The refusal of a buffer that is too short for the text.
#[derive(Clone, Copy, PartialEq, Eq, Debug)]
pub struct ShortBuffer;

impl ShortBuffer {
    /// The number that the refusal goes by.
    pub fn number(&self) -> u32
        ensures { result ≡ 14 }
    {
        14
    }
}

/// An answer of one line. A refusal is a number here: this crate stands below the enums of the refusals, which `number()` turns
/// to numbers when a reply is made.
#[derive(Clone, Copy)]
pub enum Reply {
    /// Line `line` of the input is refused, for the reason `number`.
    Bad { number: u32, line: usize },
    /// The plan cannot be laid: the fact is wanting at the place.
    Unlaid { place: usize, fact: usize },
    /// The edit is carried out, and saves so much.
    Done { saving: u32 },
    /// The edit is refused with this number, which names nothing more.
    No { number: u32 },
    /// The edit is refused with 2: the task lacks the action.
    NoAction { action: u32 },
    /// The edit is refused with 3: the fact would be wanting at the place.
    NoFact { place: usize, fact: usize },
}
