// Why a book is refused: the fault of a line is held whole in the book's.
ghost use Rattle.std.specs.Prelude.{◌≡◌};
ghost use Rattle.book.specs.Faults.{at_line, line_of, number_of};
ghost use Rattle.book.specs.declared.fault.LoadFault.TheVariants.{Form, Turn};
ghost use Rattle.book.specs.declared.fault.TurnFault.TheVariants.{Full as no_room};

use records::fault::RecordFault;
use task::Full;

/// Why a record may not stand where it does.
#[derive(Clone, Copy, Debug, PartialEq)]
pub enum TurnFault {
    /// the records come in another sequence
    Sequence,
    /// a 65th fact, or a 129th act, step or list entry
    Full,
    /// a price over 1,000,000
    Price,
    /// a set or a step names what the book lacks
    Unknown,
    /// the text ends before its goal line
    End,
}

// By hand: std derives no `From`, and thiserror's derive asks for messages, which these faults do not have.
impl From<Full> for TurnFault {
    ghost from_gives = { λ _ r. r ≡ no_room };

    fn from(_: Full) -> TurnFault {
        TurnFault::Full
    }
}

/// A fault and the line that it was found at.
#[derive(Clone, Copy, Debug, PartialEq)]
pub struct At<F> {
    pub line: usize,
    pub fault: F,
}

/// Why a book is refused.
#[derive(Clone, Copy, Debug, PartialEq)]
pub enum LoadFault {
    /// The text has more bytes than a book can have (15).
    TooLong,
    /// A line is not of the forms of a book (16).
    Form(At<RecordFault>),
    /// A line may not stand where it does (17).
    Turn(At<TurnFault>),
}

// By hand for the same reason; and a derived one would have no contract, while `Refused` names the fault that a `?` makes.
impl From<At<RecordFault>> for LoadFault {
    ghost from_gives = { λ e r. r ≡ Form e };

    fn from(e: At<RecordFault>) -> LoadFault {
        LoadFault::Form(e)
    }
}

// By hand, as for the fault of a line's form: `Refused` names this one too.
impl From<At<TurnFault>> for LoadFault {
    ghost from_gives = { λ e r. r ≡ Turn e };

    fn from(e: At<TurnFault>) -> LoadFault {
        LoadFault::Turn(e)
    }
}

/// The same answer, with the line at its fault.
pub fn placed<T, F>(line: usize, r: Result<T, F>) -> Result<T, At<F>>
    ensures { result ≡ at_line line r }
{
    r.map_err(|fault| At { line, fault })
}

impl LoadFault {
    /// The number by which the book is refused.
    pub fn number(&self) -> u32
        ensures { result ≡ number_of self.now }
    {
        match self {
            LoadFault::TooLong => 15,
            LoadFault::Form(_) => 16,
            LoadFault::Turn(_) => 17,
        }
    }

    /// The line that is at fault, from 1; 0 where the book is too long.
    pub fn line(&self) -> usize
        ensures { result ≡ line_of self.now }
    {
        match self {
            LoadFault::TooLong => 0,
            LoadFault::Form(at) => at.line,
            LoadFault::Turn(at) => at.line,
        }
    }
}
