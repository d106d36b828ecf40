// The book: a week's lines become a task and a plan.
#![tactic(auto)]

mod entries;
pub mod fault;
pub mod load;
mod loader;
mod stage;
