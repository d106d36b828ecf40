// The lines of a book: what each says, its one text, and the reader that hands them out.
#![tactic(auto)]

pub mod fault;
mod fields;
pub mod line;
pub mod reader;
pub mod record;
pub mod word;
