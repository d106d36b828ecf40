// Why an edit is refused.
ghost use Rattle.std.specs.Prelude.{◌≡◌};
ghost use Rattle.shaping.specs.Faults.{number_of, values_of};
ghost use Rattle.shaping.specs.declared.fault.EditFault.TheVariants.{Sheet as OfSheet};
ghost use Rattle.sets.specs.Contents.{contents};

use sets::list::ArrayVec;
use sheet::SheetFault;

/// Why an edit is refused. The sheet is as it was then.
#[derive(Clone, Copy, Debug, PartialEq, Eq)]
pub enum EditFault {
    /// They are no positions in that order.
    Position,
    /// They are no block, or cannot become one.
    Block,
    /// The one is not tied before the other.
    Tie,
    /// A position outside both parts is tied between them.
    Between,
    /// There are no steps to put in.
    Empty,
    /// The new steps cost no less.
    NotCheaper,
    /// The sheet asked for is refused.
    Sheet(SheetFault),
}

impl EditFault {
    /// The number that the refusal goes by.
    pub fn number(&self) -> u32
        ensures { result ≡ number_of self.now }
    {
        match self {
            EditFault::Position => 1,
            EditFault::Block => 5,
            EditFault::Tie => 6,
            EditFault::Between => 7,
            EditFault::Empty => 8,
            EditFault::NotCheaper => 9,
            EditFault::Sheet(fault) => fault.number(),
        }
    }

    /// What the refusal names, as the refusal of a sheet does.
    pub fn values(&self) -> ArrayVec<usize, 2>
        ensures { contents result ≡ values_of self.now }
    {
        match self {
            EditFault::Sheet(fault) => fault.values(),
            _ => ArrayVec::new(0),
        }
    }
}

// By hand: the contracts name the fault that a `?` makes.
impl From<SheetFault> for EditFault {
    ghost from_gives = { λ why r. r ≡ OfSheet why };

    fn from(why: SheetFault) -> Self {
        EditFault::Sheet(why)
    }
}
