// Run sheets: how a plan is laid as one, and the check that every running order of it finds its needs.

#![tactic(auto)]

mod checking;
mod fault;
mod relation;
mod rows;
mod sheet;

pub use checking::{check, check_actions, check_steps};
pub use fault::SheetFault;
pub use relation::Relation;
pub use rows::row;
pub use sheet::{Sheet, Steps, lay};

#[cfg(test)]
mod tests;
