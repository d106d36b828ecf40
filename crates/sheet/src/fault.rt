// Why a sheet is refused.
ghost use Rattle.std.specs.Prelude.{◌≡◌};
ghost use Rattle.sets.specs.Contents.{contents};
ghost use Rattle.sheet.specs.Faults.{number_of, values_of};

use sets::list::ArrayVec;

/// Why a plan or a sheet is refused.
#[derive(Clone, Copy, Debug, PartialEq, Eq)]
pub enum SheetFault {
    /// The task lacks this action.
    UnknownAction(u32),
    /// In some running order the fact does not stand at the turn of the place, which needs it.
    WantingFact { place: usize, fact: usize },
    /// More than 128 steps.
    TooLong,
}

impl SheetFault {
    /// The number that the refusal goes by.
    pub fn number(&self) -> u32
        ensures { result ≡ number_of self.now }
    {
        match self {
            SheetFault::UnknownAction(_) => 2,
            SheetFault::WantingFact { .. } => 3,
            SheetFault::TooLong => 4,
        }
    }

    /// What the refusal names: the action, or the place and the fact.
    pub fn values(&self) -> ArrayVec<usize, 2>
        ensures { contents result ≡ values_of self.now }
    {
        let mut values = ArrayVec::new(0);
        match self {
            SheetFault::UnknownAction(action) => {
                let _ = values.push(*action as usize);
            }
            SheetFault::WantingFact { place, fact } => {
                let _ = values.push(*place);
                let _ = values.push(*fact);
            }
            SheetFault::TooLong => {}
        }
        values
    }
}
