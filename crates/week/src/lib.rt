// A week's book answered: loaded, its plan laid, its edits carried out, and what is left listed.

#![tactic(auto)]

mod answering;
mod editing;
mod laying;
mod reading;

pub use answering::{Outcome, answer};
pub use laying::{LaidWeek, lay_week};
pub use reading::{list_of, meant, next_edit};

#[cfg(test)]
mod tests;
