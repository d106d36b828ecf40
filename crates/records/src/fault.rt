// Why a line is no record: the fault of a field is held whole.
ghost use Rattle.std.specs.Prelude.{◌≡◌};
ghost use Rattle.records.specs.declared.fault.RecordFault.TheVariants.{Field};

use text::FieldFault;

/// Why the bytes of a line are no record.
#[derive(Clone, Copy, Debug, PartialEq)]
pub enum RecordFault {
    /// the text ends before the line does
    Unended,
    /// no record begins so
    Word,
    /// a field behind the word is not of its form
    Field(FieldFault),
}

// By hand: std derives no `From`, and thiserror's derive asks for messages, which these faults do not have.
impl From<FieldFault> for RecordFault {
    ghost from_gives = { λ e r. r ≡ Field e };

    fn from(e: FieldFault) -> RecordFault {
        RecordFault::Field(e)
    }
}
