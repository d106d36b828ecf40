// That a sheet is not as the definitions have it.
use std::fmt;

// Something about the sheet at hand differs.
#[derive(Clone, Copy, Debug, PartialEq, Eq)]
pub struct Differs;

// The first sheet that differs, by its place among all: the first of them has number 0.
#[derive(Clone, Copy, Debug, PartialEq, Eq)]
pub struct Difference {
    pub sheet: u32,
}

impl fmt::Display for Difference {
    fn fmt<W: fmt::Write>(&self, f: &mut fmt::Formatter<W>) -> fmt::Result {
        let sheet = self.sheet;
        write!(f, "sheet {sheet}")
    }
}
