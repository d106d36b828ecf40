// Facts, actions and tasks, what performing an action does, and what a list of actions costs.
#![tactic(auto)]

mod actions;
mod tariffs;
mod tasks;

pub use actions::{Action, Facts};
pub use tariffs::{
    BookTariff, Tariff, TooLong, TouchTariff, price_of, price_of_list, price_of_plan,
};
pub use tasks::{Full, LONGEST_LIST, Plan, Task};

#[cfg(test)]
mod tests;
