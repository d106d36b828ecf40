// The whole week: a plan laid, its sheet edited, and a rig driven over each.
#![tactic(auto)]

mod doing;
mod editing;
mod promise;

pub use doing::{WeekDone, do_week};
pub use promise::every_week_keeps_its_promise;
