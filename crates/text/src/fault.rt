/// What a field is not.
#[derive(Clone, Copy, Debug, PartialEq, Eq)]
pub enum FieldFault {
    /// The bytes are no number.
    Number,
    /// The bytes are no name.
    Name,
    /// The bytes are no list.
    List,
}
