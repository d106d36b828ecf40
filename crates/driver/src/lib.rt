// A driver: takes and does the steps of a sheet, one after another.
#![tactic(auto)]

mod laid;
mod picked;
mod stepping;

pub use laid::do_as_laid;
pub use picked::drive;
pub use stepping::step;
